//! The machine whose accesses are ordered as they execute: its states, moves, steps and runs, for every rider and
//! carry. A move is some acts of the memory system and what its core becomes. The crate has definitions alone, and the
//! type of the moves.
//!
//! Proved: `Move::number` and `Move::candidate` answer what their definitions say. States, moves, steps, events and
//! runs of the machine are definitions.
#![tactic(auto)]

mod moves;

pub use moves::Move;
