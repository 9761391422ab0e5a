//! The recorder in code: one run of an image under one schedule, with both logs. While the run goes on each access gets
//! the edges that nothing else implies, from times that lie beside the caches' copies. The recorder holds no list of
//! accesses.
//!
//! It keeps no outcome. `record_run` makes the run twice, by `run_image` and by `record_image`: run and recording are
//! one function of image, parameters and schedule, so both speak of one run.
//!
//! Proved: `record_run` answers the definition's outcome and recording of exactly this image, these parameters and this
//! schedule (`outcome`, and `recording` in `IsRecordingOf`). `least`: the reduced log is the least set of the run's
//! accesses. `regulated`: the regulated log has each pair's greedy vectors of the reduced edges, by whatever counts
//! what is known in the run. `valid`: it can be spelled. There is no step budget: the loop's measure is the bound.
//! `record_image`, which the tool's `record` calls, promises the same record of the recording alone.
#![tactic(auto)]

mod run;
mod run_clerk;

pub use run::{Recorded, record_image, record_run};
