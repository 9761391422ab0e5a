//! What if the other core had gone first: what a run comes to that at a cut takes another core's instruction first.
//!
//! Up to the cut the run is the recorded one. From there on nothing waits for the log. Each core goes on where the
//! recorded timeline has it next, so that as little as may be changes, and then round by round, until no core can.
//! Any such order is a run of a sequentially consistent machine.
//!
//! Proved: `other_way` answers what the definition's order comes to (`other_outcome`). What is left of an order if
//! cores that can't go on are passed over plays, and falls short nowhere (`taken_places_play`). Where the order has
//! come to the cut, the state is the cut's (`the_cut_comes_first`). If the core that goes first has an instruction of
//! the recording to come, the outcome is that of the play of an order that begins with the cut, and then with that core
//! (`other_ways_play`). `other_told` tells how each core ends, and the words that differ from those at the recording's
//! end. `put_recorded` tells how each core of the recording ends. All three are refused for want of memory alone.
#![tactic(auto)]

mod free;
mod going;
pub mod laws;
mod others;
mod recorded;
mod telling;

pub use others::other_way;
pub use recorded::put_recorded;
pub use telling::other_told;
