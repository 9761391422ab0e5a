//! Riders that record times have those of the ordered accesses, at each step. The crate has laws alone.
//!
//! Proved: riders that record times have the last write, and each core's last read since, of each word, by the accesses
//! ordered so far (`timed_steps`). An ordered access finds these. Riders that meet have the same last writes
//! (`riders_meet_alike`).
#![tactic(auto)]

mod laws;

pub use laws::{riders_meet_alike, timed_steps};
