//! Conflicting accesses, and the least set of edges that orders them all (the transitive reduction). Its laws are those
//! of clocks and of the online rule.
//!
//! Proved: `least_of` answers the least set, each edge once, in order (`least`, `once`, `order`). The laws are those of
//! the least set, of clocks and of the online rule, among them `covering_law`, `one_least_law`, `clock_law` and
//! `online_law`. `sizes_law`: the list has at most 512 accesses.
#![tactic(auto)]

pub mod laws;
mod least_set;
mod pairs;

pub use least_set::least_of;
pub use pairs::conflicts;

/// The most accesses of a list that `least_of` takes.
pub const ACCESSES_MAX: usize = 512;
