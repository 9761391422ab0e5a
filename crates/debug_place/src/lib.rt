//! Where a debugger stands in a recorded run: always at a closed cut, from which it moves on and back along the
//! timeline.
//!
//! A place is a cut and an index: no move replays anything, and none takes memory. A move without a test costs what the
//! clocks say of it. What stops a place is a test of the instruction that comes next at a core, given by a trait. So
//! each core's own instructions tell where it stops, and of these places the first or the last of the timeline counts.
//! One looks at what is near before one looks farther.
//!
//! Proved: a `Place` is always at a closed cut, and its state is the one that every replay order has that comes there
//! (`cut`: `stands`). `core`, `word` and `next_use` tell that state. `step` comes to the least closed cut with the
//! core's next instruction, and `step_back` to the greatest one without its last. `seek` and `move_on` come to the cut
//! that is asked for. `go_to` comes to the first cut of the way at which a test stops it before a core's place, or to
//! the way's end. `back` comes to the last such cut of the way here from the closed cut that is gone back to, or to
//! that cut. `timeline` is the order by rounds. The test is any function of the state and the core to
//! which of the state only that core's count and its next instruction matter (`Stops`). `seek`, `move_on`, `go_to`
//! and `back` are never refused. Where another move is, the place is where it was.
#![tactic(auto)]

mod counts;
mod looks;
mod place;
mod stops;
mod turns;

pub use place::Place;
pub use stops::{Stopped, Stops};
