//! What is read off a flat state: which moves can be made, its cores, whether each has ended, and at the end the words
//! of its memory. The crate has definitions and laws alone.
//!
//! Proved: at every state that the flat state stands at, a move is enabled exactly if its mark says so
//! (`marks_are_moves`). A mark is a look at one node, and for a request at its block's entry. As a block turns busy or
//! free, the marks of its askers alone change (`askers_follow`). The nodes' cores are the state's, how
//! many steps may be left is a sum over the nodes, and if nothing is under way the entries' words are the final memory
//! (`a_flat_state_shows_its_end`).
#![tactic(auto)]

mod ends;
mod laws;

pub use ends::a_flat_state_shows_its_end;
pub use laws::{askers_follow, marks_are_moves};
