//! Seats at the table of a threaded replay, step by step and in threads of their own, the turns of workers, and replays
//! under a gate. It has tests alone, and stands apart so that the crates above the table and the workers don't wait for
//! it.
//!
//! Tested: `replay_table`, `touch_judge` and `replay_threads`; the gate lets each core's first instruction wait for the
//! other core.
#![tactic(auto)]

#[cfg(test)]
mod recordings;
#[cfg(test)]
mod seats;
#[cfg(test)]
mod table_tests;
#[cfg(test)]
mod thread_tests;
#[cfg(test)]
mod turn_tests;
