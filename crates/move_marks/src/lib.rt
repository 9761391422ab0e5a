//! Which moves can be made, kept from step to step: one bit a core in a set for each kind of move. The crate also says
//! what a turn of the home changes of them. Each machine over a memory system keeps such marks, so that no step looks
//! at all cores.
//!
//! Four sets of cores lie in one word, so the number of moves is a count of bits. A choice's move is found by passing
//! whole kinds over. A move renews only the bits of what it changed. The request of a core that asked is looked at when
//! room is made for it, or else before the next move.
//!
//! Proved: `set`, `mark_all` and `clear_all` change the marks that they name, core by core and kind by kind, and
//! nothing else. `count` is how many are marked, and `pick` the one of a number in the list of the marked moves, by
//! kinds and cores. `last_at_port` is the number of the last one where it isn't a core's own. `mark_turn`: after a turn
//! of the home exactly the messages that it sent are marked too, and the
//! requests for its block as it got free or busy. `take_request` and `take_response` make the home's turn with the
//! marks. These are those of what can be done at the ports after it, where they were before. `with_late` and
//! `make_room`: the one request that isn't looked at yet is marked as it can be taken.
#![tactic(auto)]

mod late;
mod marking;
mod marks;
mod sets;
mod taking;

pub use late::{make_room, with_late};
pub use marking::{mark_port, mark_turn};
pub use marks::{MarkedMove, MoveKind, MoveMarks};
pub use sets::{count, nth, number_in, set_to};
pub use taking::{take_request, take_response};
