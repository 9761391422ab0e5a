//! Riders that record times, in copies and in the whole machine, and the list of retirements for which a machine
//! stands. Each copy that counts has the last write of each of its words, and no read but loads since that write. A
//! core that may write finds each core's last read. The crate has laws alone.
//!
//! Proved: where riders record times, each state of each run stands for its retirements, each with the clock noted for
//! it (`timed_steps`, `runs_are_timely`). An access finds the last write of its word and, if it writes, each core's
//! last read since, and nothing else (`finds`). Riders that meet have the same last writes (`riders_meet_alike`). A
//! clerk's step appends what retired by the clerk's clock (`timed_tellings`). Where the clocks are exact, so is what an
//! access finds (`noted_times_are_exact`).
#![tactic(auto)]

mod laws;

pub use laws::{
    accesses_are_ordered, noted_times_are_exact, riders_meet_alike, runs_are_timely, timed_steps,
    timed_tellings,
};
