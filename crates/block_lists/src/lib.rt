//! Lists of which only the blocks that were written take memory. Every other place has one value, which the list began
//! with.
//!
//! A place is found by a table of blocks, and those that nobody wrote share one block. So a look has no case of its own
//! for them, and a list costs by what was written and not by its length.
//!
//! Proved: contracts see the whole list. `new` repeats a value, `get` is an element, and `set` changes one place; after
//! want of memory nothing has changed.
#![tactic(auto)]

mod block_list;

pub use block_list::BlockList;
