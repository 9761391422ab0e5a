//! The cuts at which the order of an edge's two instructions was still open: for each edge of a least log both come
//! next at some closed cut.
//!
//! At such a cut the edge alone says which of the two goes first, since all other logged sources of both are done. So
//! each edge of a least log is a place where the run could have gone on the other way. The greatest such cut is the
//! greatest closed one without the source; the least one is what that has in common with the least closed cut that
//! holds the target. `last_cut` and `first_cut` are those; they take no memory, and are never refused.
//!
//! Proved: of an edge of a least log `last_cut` is a closed cut at which both instructions come next, and holds each
//! other one; `first_cut` is one, and is held by each other one. At the greatest closed cut without the source both
//! come next (`open_edges`). A log of conflicts that suffices is least exactly if each of its edges has such a cut.
//! There the source's core is ready, and behind its instruction the target's. From wherever the target is done the step
//! back over the source comes to such a cut (`steps_to_open_cuts`). The next accesses of the two cores there conflict
//! (`clashes`).
#![tactic(auto)]

mod cuts;
pub mod laws;

pub use cuts::{first_cut, last_cut};
