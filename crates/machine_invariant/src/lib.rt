//! The machine's invariant, which every step keeps: the memory system's own, and what the cores keep. Whatever waits at
//! a core's port does so for the access that the core needs. The moves rest on it, and it leaves no deadlock. The crate
//! has laws alone.
//!
//! Proved: the invariant holds at the start, and each enabled move keeps it, whatever rider a clerk leaves
//! (`every_step_keeps_it`). What such a move does to the memory system can be done, one act after the other. So each
//! state of a run has the invariant (`every_state_of_a_run_has_it`). In each state that has it some move is enabled until
//! each core's program is done, and then nothing is under way (`moves_go_on_to_the_end`). Every enabled move's message
//! has a row, data let the access be made that waited for them, and no link that a move pushes to is full.
#![tactic(auto)]

mod laws;

pub use laws::{every_state_of_a_run_has_it, every_step_keeps_it, moves_go_on_to_the_end};
