//! The machine's moves on the flat state, with which the marks go: which moves can be made, one bit a core in a set for
//! each kind of move, and for each block which cores ask for it. A move renews only the marks of what it changed, so no
//! step looks at all cores.
//!
//! Proved: each call makes the machine's move at every state that the flat state stands at, and tells what happened.
//! After it exactly the moves are marked that can be made then (`Follows`), if so they were before.
#![tactic(auto)]

mod marking;
mod messages;
mod own;
mod turns;

pub use messages::{hear, hear_data};
pub use own::{ask, give_back, load, local, upgrade, write};
pub use turns::{receive, serve};
