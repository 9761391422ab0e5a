//! The cache controller of one core, for any rider: sixteen direct-mapped lines, kept coherent by messages from and to
//! the home. The protocol is MSI of the Primer on Memory Consistency and Cache Coherence (Nagarajan, Sorin, Hill and
//! Wood, 2nd edition, chapter 8). In its profile the home collects the acknowledgements.
//!
//! A rider lies in a box (`Held`), which is swapped and not copied if a line takes the rider of a message. If a copy
//! ends with an answer, its rider is given away, so nothing rides on the line from then on. A message whose rider is
//! lent is the same enum over a reference (`Request<&R>`), and a slot is the place in which a message lies with its
//! rider.
//!
//! Proved: each call of `Cache` is its row of the table, for every rider (`want`, `on_home`). Messages come by value,
//! with their riders lent, or handed over where a line takes them or a copy ends. Riders change nothing of the plain
//! part (`riders_change_no_plain_part`).
#![tactic(auto)]

mod cache;
mod held;
mod line;
mod messages;
mod slots;

pub use cache::{Cache, riders_change_no_plain_part};
pub use held::Held;
pub use line::{Line, State};
pub use messages::{FromHome, Request, Response};
pub use rtr_types::LINES;
pub use slots::{Bare, FromHomeSlot, RequestSlot, ResponseSlot, Slot};
