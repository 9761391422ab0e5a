//! The machine as one flat state, beside the states of the definitions: one struct a core, with its lines and what is
//! on its way to and from it, and one entry a block of the home. Lines, requests and messages name a block by the
//! place of its entry. So no message has words with it, and the words of a block stand once, in its entry.
//!
//! The flat state isn't a view of a state of the definitions: stale words of copies can't be read back from it. It
//! *shows* such a state (`Shows`): each core with its lines by state and block, what is on each link by kind and block,
//! and how the home holds each block. It *stands* at one (`Stands`) if that state keeps the machine's invariant and the
//! entries have the words that the run's accesses left. Crates above make the moves.
//!
//! Proved: a ring has at its end what is put, and gives what is oldest (`MessageRing`, `ReplyRing`). A core's next
//! instruction retires as `rv_core` has it (`Node::retire`). `run` and hunts go by the flat state.
#![tactic(auto)]

mod block;
mod flat;
mod message_ring;
mod node;
mod reply_ring;

pub use block::{Held, HomeBlock};
pub use flat::Flat;
pub use message_ring::{Message, MessageRing, Told};
pub use node::{Ask, KeptLine, Node};
pub use reply_ring::{Replied, Reply, ReplyRing};
