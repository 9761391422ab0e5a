//! Sessions of a debugger, packet by packet. It has tests alone, and stands apart so that the crate of sessions is
//! proved without them.
//!
//! Tested, not proved of gdb: a session of gdb 13.1 on a program that ends by a fault is answered to the byte, but for
//! one user's command. Steps, breakpoints of both kinds, watched ranges of each kind, refusals, interrupts and ends are
//! worked out by hand on a recording of two cores, and each fault on one of its own.
#![tactic(auto)]

#[cfg(test)]
mod command_rows;
#[cfg(test)]
mod command_tests;
#[cfg(test)]
mod crash;
#[cfg(test)]
mod crash_rows;
#[cfg(test)]
mod fault_tests;
#[cfg(test)]
mod handed_over;
#[cfg(test)]
mod lock;
#[cfg(test)]
mod rows;
#[cfg(test)]
mod session_rows;
#[cfg(test)]
mod session_tests;
#[cfg(test)]
mod transcript_tests;
#[cfg(test)]
mod turn_rows;
