//! A core's own moves on the flat state: an instruction that looks at no data retires, and so does a load or a write
//! that its lines allow. Where they don't allow it, the core asks the home for what it needs.
//!
//! Proved: each call makes the machine's move at every state that the flat state stands at (`Makes`). So the new flat
//! state stands at the state after the move, with the words that its access left.
#![tactic(auto)]

mod asks;
mod retire;

pub use asks::{ask_for, give_back, upgrade};
pub use retire::{kind_of, retire_load, retire_local, retire_write};
