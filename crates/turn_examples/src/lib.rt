//! Turns, policies, ranges of runs and turns made small, with values from outside: from a program in plain Python that
//! follows the definitions, or counted by hand. It has tests alone.
//!
//! Tested: `turn_lists` and `turn_policies`: which list a number has, which texts are turns, and who is picked by each
//! policy in short runs; `run_ranges` and `small_turns`: the first run of a range, its table, turns and acts made
//! small, and acts in an order with few turns.
#![tactic(auto)]

#[cfg(test)]
mod few_tests;
#[cfg(test)]
mod pick_tests;
#[cfg(test)]
mod range_tests;
#[cfg(test)]
mod small_tests;
#[cfg(test)]
mod text_tests;
