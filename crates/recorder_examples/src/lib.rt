//! Recorded runs against plain definitions: the least set, the greedy vectors, what is known at each instruction, and
//! which outcomes small programs with store buffers have under many schedules. It has tests alone, and stands apart so
//! that the crates above the recorders don't wait for it.
//!
//! Of cores with store buffers, the programs are store buffering, message passing, load buffering, and two readers of
//! two writers. Each runs over 200 schedules, with and without FENCE. The seeds are 0 to 99 alone, and behind up to 23
//! equal choices; of the readers four chosen schedules beside.
//!
//! Tested: `recorder`, by runs of all cores, against a slow program that answers the least set, and one that makes the
//! vectors position by position. Runs of the machine tell what is known at their instructions, and `know_history` of
//! runs of eight cores stands against the plain reading. By `tso_run` small programs have each outcome that total store
//! order allows, and no other. A recording by `tso_record` was worked out by hand, and recorded runs are replayed. By
//! `run_flat` 20 runs of four cores come to what they come to by `run_image`.
#![tactic(auto)]

#[cfg(test)]
mod dense_tests;
#[cfg(test)]
mod flat_tests;
#[cfg(test)]
mod hand_tests;
#[cfg(test)]
mod history_tests;
#[cfg(test)]
mod keeper;
#[cfg(test)]
mod known_tests;
#[cfg(test)]
mod least_tests;
#[cfg(test)]
mod litmus_tests;
#[cfg(test)]
mod recorded_tests;
#[cfg(test)]
mod regulated_tests;
#[cfg(test)]
mod run_tests;
#[cfg(test)]
mod settings;
#[cfg(test)]
mod vector_tests;
