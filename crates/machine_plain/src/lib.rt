//! Riders and carries change nothing of a machine but themselves. Its plain part, where both are forgotten, moves
//! exactly as the machine on which nothing rides. The crate has laws alone.
//!
//! Proved: whatever rides, the plain part of a step is the plain machine's step (`riders_change_nothing`). It has the
//! same moves in the same order and the same accesses, and the plain part shows the same start, end and memory
//! (`the_plain_part_shows_the_same`).
#![tactic(auto)]

mod laws;

pub use laws::{riders_change_nothing, the_plain_part_shows_the_same};
