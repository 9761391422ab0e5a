//! What is asked about races: last writes, loads since, all accesses to a word, conflicts, edges, and which instruction
//! comes before which.
//!
//! It answers by the accesses of the low order and by clocks. The answers don't depend on that order, since writes of a
//! word conflict. `edges_out_of` takes time by the length of the run, since logs are kept by target. `log_ends` keeps
//! the accesses at ends of edges alone, by a hash, so it takes memory by the edges.
//!
//! Proved: of an audited recording, `last_write` is the write of the word in the cut to which each other write of it in
//! the cut leads. It is None exactly where the cut has none. `reads_since` has exactly the loads of the word in the cut
//! to which each write of it in the cut leads, each once. `history` has exactly the accesses to the word.
//! `conflicts_of` has the access of an instruction, and the accesses of other cores to its word with which it
//! conflicts, in that order. They reach back to and with the last write before it, and up to and with the next behind
//! it. `edges_into` and `edges_out_of` have exactly the instructions from which an edge of the log leads to one, and to
//! which one leads from it, each once. `log_ends` has all edges of the log in its order, each with the accesses of its
//! two instructions. `leads_to` says whether by the log the one instruction comes before the other. A cut has at most
//! one last write of a word (`one_last_write`).
#![tactic(auto)]

mod conflicts;
mod ends;
pub mod laws;
mod log_edges;
mod ordered;
mod sources;
mod words;

pub use conflicts::{Conflicts, access_at, conflicts_of};
pub use ends::{Ends, log_ends};
pub use ordered::leads_to;
pub use sources::{edges_into, edges_out_of};
pub use words::{history, holds, last_write, reads_since};
