//! Schedules as people write them: lists of turns, in each of which an actor makes so many accesses in a row.
//!
//! Proved: `joined`, `left_out` and `with_count` give the lists that are defined (`joined`, `left_out`, `with_count`);
//! `FewLists::list` gives the list that has this number among all lists of up to six turns (`few`); what is written is
//! the turns' text, a text is read exactly where it's the text of turns (`spelled_turns`, `turns_of`), and no two lists
//! have one text (`turns_are_spelled_once`).
#![tactic(auto)]

mod actor;
mod few;
mod joining;
mod reading;
mod writing;

pub use actor::{Actor, COUNT_MAX, Turn};
pub use few::{FewLists, TURNS_MAX};
pub use joining::{joined, left_out, with_count};
pub use reading::{turns_are_spelled_once, turns_of};
pub use writing::spelled_turns;
