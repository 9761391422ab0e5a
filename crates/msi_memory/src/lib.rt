//! The memory system: ports, home and its six acts, in code, for any rider and carry. It has each core's cache, carry
//! and ordered links, and the home, without the cores that use it. The protocol is MSI of the Primer on Memory
//! Consistency and Cache Coherence (Nagarajan, Sorin, Hill and Wood, 2nd edition, chapter 8), with a home that blocks.
//!
//! What an act needs of the state holds in each state that acts lead to from the start. A client shows it by the laws
//! of the memory system, and keeps for itself what each port was asked for.
//!
//! Proved: each act of `MemorySystem` leaves the memory system as the act's definition says, for every rider and carry,
//! and takes no memory. The acts are `want`, `touch`, `retire`, `take_request`, `take_response` and `take_message`.
//! `new`, `make_room`, `has_room`, `askers` and `final_words` are their definitions, and `turn` is the whole answer of
//! the home's turn. After want of memory `make_room` has changed nothing (`err`).
#![tactic(auto)]

mod answering;
mod memory;
mod port;
mod rooms;
mod sending;
mod turn;

pub use memory::MemorySystem;
pub use port::{Mail, Port};
pub use turn::Turn;
