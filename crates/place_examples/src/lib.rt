//! Places in a recording of two cores, and moves from one to another. It has tests alone, and stands apart so that the
//! crate of places is proved without them.
//!
//! Tested: `debug_place`: steps and steps back, cuts that are gone to, and breakpoints, in a recording of two cores;
//! and the way through one of 4,000,000 instructions.
#![tactic(auto)]

#[cfg(test)]
mod handed_over;
#[cfg(test)]
mod long_tests;
#[cfg(test)]
mod move_tests;
#[cfg(test)]
mod stop_tests;
