//! Replays of a recording by one of its logs: replay orders, the low order, and plays with and without given values. A
//! play goes over one flat memory. The low order takes the lowest-numbered ready core at each place.
//!
//! There is one definition of a play. It takes for each core and count a value or none, and a play without values is
//! the one in which none is given. `run` and the audit go along the same `LowOrder`, which looks each instruction's
//! sources up once. If the low order falls short and would get stuck later, or the other way round, the reason that it
//! meets first is told.
//!
//! Proved: `run` is the play of the low order, with `Stuck` and `Short` exactly where that order ends early or falls
//! short. `Stuck` has its cut, and `Short` its core and count. `Replay::ready` holds for a core exactly where its place
//! can be added to the replay order that was played, and `advance` is one place of the play. `go_on` is many places of
//! one core, and a `Watch` is told of the access of each (`GoesTo`). A play goes by image, limit and totals alone
//! (`plays_go_by_the_image`). `run_given` is the same with given values. `core`, `word`, `next_need` and `next_use`
//! tell what a replay under way has come to, and what comes next.
#![tactic(auto)]

mod answers;
mod coming;
pub mod laws;
mod low_order;
mod next_edge;
mod noted_memory;
mod one_place;
mod replay;
mod sourced;
mod tally;
mod watch;

pub use answers::{Advanced, ReplayFault};
pub use coming::Coming;
pub use low_order::LowOrder;
pub use replay::Replay;
pub use sourced::Sourced;
pub use tally::Tally;
pub use watch::Watch;
