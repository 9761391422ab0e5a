//! The recorder of cores with store buffers, in code: the reduced log of the ordered accesses, and the words of the
//! logged loads. While the run goes on each ordered access gets the edges that nothing else implies, from times that
//! lie beside the caches' copies. The recorder holds no list of accesses.
//!
//! Proved: `tso_record` answers the definition's outcome and recording of exactly this image, these parameters and this
//! schedule (`outcome`, and `recording` in `IsTsoRecordingOf`). `ended`: the run ended there, each core's program being
//! done and no access pending. `valid`: the recording can be spelled. `least`: its reduced log is the least set of the
//! accesses that the run ordered. `logged`: its values are the words of exactly the loads that left their queue where
//! their core's port couldn't read the word, or the word differed. `replayed`: every replay order of it follows the run
//! (`FollowsTsoRun`). It plays by the run's accesses, of which the log orders each two that conflict as the run did, and
//! gives each core the first of the run's loads and atomic memory operations, each with its word. It can go on until it
//! is whole, and a whole one ends in the outcome. `tso_record_image`: the same of the recording alone.
#![tactic(auto)]

mod run;
mod run_clerk;
mod uncarried;

pub use run::{TsoRecorded, tso_record, tso_record_image};
