//! Moves of three cores by hand, their timeline by rounds, replays that are looked at, what is asked of a word, of
//! edges and of conflicts, cuts at which an order was open, and a core file. It has tests alone, and stands apart so
//! that the crates above these don't wait for it.
//!
//! Tested: `cut_moves`, `cut_index`, `race_queries`, `race_cuts`, `core_file` and replays under way, on a recording
//! whose logs were written by hand.
#![tactic(auto)]

#[cfg(test)]
mod asking;
#[cfg(test)]
mod files;
#[cfg(test)]
mod indexes;
#[cfg(test)]
mod opening;
#[cfg(test)]
mod recordings;
#[cfg(test)]
mod stepping;
#[cfg(test)]
mod walking;
