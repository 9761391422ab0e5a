//! The flat machine: a flat state, the marks of the moves that can be made, and where the entry of each block is. A
//! step makes the move that a choice numbers.
//!
//! Proved: a step makes the move that the plain machine chooses, at every state that the flat state stands at, answers
//! what happened in it, and leaves fewer steps (`HasStepped`). For want of memory it stands where it stood. A new
//! machine stands at the start, and so does one that starts over (`restart`). It has what a run asks of a machine
//! (`SteppedMachine`). Hunts go by it.
#![tactic(auto)]

mod machine;
mod moving;
mod starting;
mod stepped;
mod ways;

pub use machine::{FlatMachine, Happened};
