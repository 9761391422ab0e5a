//! Vector clocks, and what comes before what by a log (happens-before).
//!
//! Proved: `Clock`'s calls are their definitions. `merge_law`: a clock merged over predecessors is reachability, over
//! any list of edges by which no path leads back. `among_law`: an edge is among a list's exactly where the list
//! contains it.
#![tactic(auto)]

mod clock;
pub mod laws;

pub use clock::Clock;
