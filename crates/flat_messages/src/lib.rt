//! A core takes a message from home on the flat state: its line changes as the cache's table has it, and it may answer.
//! After a block's data the access that waited for them is made in the same move.
//!
//! Proved: a line's state after a message and its answer are those of the table's row (`heard`, `answered`). Each call
//! makes the machine's move at every state that the flat state stands at (`take_word`, `take_data`).
#![tactic(auto)]

mod data;
mod words;

pub use data::take_data;
pub use words::take_word;
