//! Lists that take their room beforehand, so that an addition needs no memory. A step of a run rests on it.
//!
//! Lists remember which one may lack room since the last addition, if it is one alone: room is then made for it without
//! a look at the others. No contract shows what they remember, since it changes no answer.
//!
//! Proved: after `make_room`, `push` and `set_last` put an item down without memory, in one list or in one of several.
//! Contracts see the items alone.
#![tactic(auto)]

mod all_lists;
mod one_list;

pub use all_lists::RoomyLists;
