//! The reduced log, made while the run goes on: each access gets the edges that nothing else implies.
//!
//! Only what the core's previous clock doesn't know of is a candidate. A store's candidates are the reads since the
//! last write, or that write if there are none, so a core has at most one candidate. The new clock merges the clocks of
//! all candidates, kept or not.
//!
//! Proved: `Reducer`'s calls are its definitions, for all times that are handed in. Where these are exact, `retire`
//! answers exactly the covering pairs into the access, once and by rising source core (`exact_for_law`, `retire_law`).
//! Then its clock is exact, all edges together are the least set (`least_law`), and each pair's list rises in both
//! counts (`listed_law`). `retire_into` is `retire` with the edges in places that are lent. One retirement after
//! `ready` takes no memory. `sizes_law`: a list of edges has room for 17.
#![tactic(auto)]

mod edge_places;
pub mod laws;
mod live_reads;
mod pair_lists;
mod reducer;
mod rule;
mod source;

pub use edge_places::{EDGES_ROOM, EdgeList, EdgePlaces};
pub use reducer::Reducer;
use rtr_types::CORES_MAX;

/// The most edges that one access gets, as it has no more candidates: each core's last read of its word
/// since the last write, or that write.
const EDGES_MAX: usize = CORES_MAX as usize;
