//! A debugger's moves of a place, forth and back, of all cores or only some, and what stops them.
//!
//! What moves is a relation, since a walk's cut is. A fault is foreseen before the last instruction, and told behind
//! it. A step back goes the way back and doesn't jump, so no watched access is passed. No stop is told for a core that
//! wasn't asked to move.
//!
//! Proved: `obey` obeys each order (`Obeys`), so every stop is at a closed cut. A step goes the way to the least closed
//! cut with the core's next instruction. A step back goes to the greatest closed cut without the core's last
//! instruction. Steps in a range go on while the core stands in it, up to a stop (`StepsIn`). If all cores go on, they
//! go to the end, or back to the beginning, until the first stop on the way (`Steps`, `Goes`, in a `Direction`). If
//! only some go on or back, or one leads all, the move is so many steps, each of the core whose turn the timeline says.
//! None of them is stopped, and then comes the one that is, or the end (`GoesWith`). Turns that nothing stops are taken
//! at once, to the closed cut to which they all lead (`HasLeapt`). `begin_again` comes to the cut with nothing.
//! `set_point` and `clear_point` answer the definition's points. Each is refused for want of memory alone, and then the
//! place is at a closed cut of the same recording.
#![tactic(auto)]

mod direction;
mod ends;
mod hearing;
pub mod laws;
mod leaps;
mod marked;
mod moves;
mod order;
mod points;
mod ranges;
mod starts;
mod turns;

pub use direction::Direction;
pub use ends::end_of;
pub use moves::obey;
pub use order::Order;
pub use points::{Point, clear_point, point_of, set_point};
pub use ranges::Range;
pub use starts::begin_again;

/// The most points of one kind that are kept.
pub const POINTS_MAX: usize = 256;
