//! Cuts with names, to which the debugger's user comes back.
//!
//! A mark is a name and the counts of a cut, a count for each core. A name that is given again means the later cut.
//!
//! Proved: `put` leaves the marks of other names and has this one behind them (`with_mark`), or after want of memory is
//! as it was. `counts` answers the counts of the mark with the name, if there is one (`counts_of`). What `put` gave a
//! name `counts` answers (`put_is_found`). `told` tells each mark in a line.
#![tactic(auto)]

pub mod laws;
mod marks;

pub use marks::{Mark, Marks};
