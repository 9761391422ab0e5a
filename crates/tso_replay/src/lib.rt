//! The replay of a recording of cores with store buffers, and what it comes to for every order. Each logged load takes
//! the word that was recorded in place of the memory's.
//!
//! Proved: `tso_replay` answers the low order's play with the logged words, or `Stuck` or `Short` exactly. Take a whole
//! list of cores that plays with the recorded words, in which each logged edge goes forward, and whose conflicts are
//! before by the log: every replay order replays it (`every_order_replays_what_was_told`). Where the log orders each two
//! accesses of the low order that conflict, every replay order agrees with it
//! (`orders_agree_where_conflicts_are_ordered`). Every play fits its image (`replays_with_values_fit_their_plan`). It
//! doesn't audit: that a file which wasn't recorded orders all its conflicts isn't claimed.
#![tactic(auto)]

pub mod laws;
mod replaying;

pub use replaying::tso_replay;
