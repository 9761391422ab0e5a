//! The program but for `main`: streams, words, status, and what a person sees who waits.
//!
//! Who waits at a terminal sees the seconds there, told by a thread beside the top call. What goes to a file or a pipe
//! has no such line.
//!
//! Proved: `conclude` ends the process with the status of the exit by which the tool answers (`answered`). That exit's
//! text goes to the report and to nothing else. Its clauses stand in docs/PROVED.md.
#![tactic(auto)]

mod program;

pub use program::{conclude, run_program};
