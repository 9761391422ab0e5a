//! The least set of a list of accesses by pair of cores, as one function of the list: the reduced log of every
//! recording. The crate has definitions and laws alone.
//!
//! Proved: the least set of a list of accesses, by pair of cores, is one function of the list. It is the reduced log of
//! a recording that has these lists (`lists_are_least`).
#![tactic(auto)]

pub mod laws;
