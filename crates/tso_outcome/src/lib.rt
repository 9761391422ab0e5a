//! The run of an image with store buffers under a schedule: where it stands after each step, and what it comes to with
//! all its loads. The crate has definitions and laws alone; whoever runs the machine makes the runs.
//!
//! Proved: at the end of each run, what was told of each core's loads and atomic memory operations is what they read
//! (`a_run_is_told_whole`).
#![tactic(auto)]

mod laws;

pub use laws::a_run_is_told_whole;
