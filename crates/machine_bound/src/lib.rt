//! How many steps a run of the machine may take, and where it ends. Each step is paid for by the instructions that have
//! retired and the accesses under way. The crate has laws alone.
//!
//! Proved: every run ends, at `end_of`, within 2 P + 4 steps for each instruction that retires in it, P the number of
//! cores (`a_run_ends_in_time`). `every_step_earns`: each enabled move pays for its own step, so that `left` falls with
//! each.
#![tactic(auto)]

mod laws;

pub use laws::{a_run_ends_in_time, every_step_earns};
