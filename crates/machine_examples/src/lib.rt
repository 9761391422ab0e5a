//! Machines with and without store buffers that run, by calls, over any choices and with times, marks of moves, and the
//! flat state. A plain program computed the outcomes with buffers. It has tests alone, and stands apart so that the
//! crates above the machines don't wait for it.
//!
//! A test of a machine with buffers makes what found no memory once more, so that each passes too where one allocation
//! fails, whichever it is.
//!
//! Tested: `msi_machine`, `move_marks` and `tso_core`, by calls with values from outside. The machine with store buffers
//! makes the worked runs that the definitions give, every core that there may be adds to one word, and each ordered
//! access finds what is left. Of `flat_state` and `flat_start`: what leaves a ring, and what a new entry has.
#![tactic(auto)]

#[cfg(test)]
mod again;
#[cfg(test)]
mod images;
#[cfg(test)]
mod machine_tests;
#[cfg(test)]
mod marks_tests;
#[cfg(test)]
mod ring_tests;
#[cfg(test)]
mod start_tests;
#[cfg(test)]
mod timed_tests;
#[cfg(test)]
mod tso_run_tests;
#[cfg(test)]
mod tso_timed_tests;
