//! Runs by turns and by number, on both machines, against their choices as a slow program in plain Python works them
//! out from the definitions alone. It has tests alone, and stands apart so that the crates above the runs don't wait
//! for it.
//!
//! Tested: `run_of_turns`, `run_numbered` and `straight_counts` on both machines; the end of a run, asked (`AtEnd`).
#![tactic(auto)]

#[cfg(test)]
mod run_tests;
