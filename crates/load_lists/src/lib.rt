//! What each core's loads and atomic memory operations read, in lists that take their room beforehand.
//!
//! Proved: `note` puts what a load or an atomic memory operation read at the end of its core's list. It takes no memory
//! once `make_room` made room, which `has_room` tells. `into_items` hands the lists out without memory.
#![tactic(auto)]

mod loads_by_core;

pub use loads_by_core::LoadLists;
