//! Where the flat state begins, and room for blocks: the state at the start, and a new entry for a block that nobody
//! asked for yet.
//!
//! Proved: the flat state at the start stands at the start of the machine, with the image's words (`start`). A new
//! entry changes nothing of where it stands, and no block has two entries (`make_entry`).
#![tactic(auto)]

mod entries;
mod opening;

pub use entries::{make_entry, opening_entry};
pub use opening::{start, start_on};
