//! A debugger's session in a conversation, whoever answers: bytes are heard, acknowledged at once, and each packet
//! answered before the next byte.
//!
//! The first packet is acknowledged before anything slow is done. Else gdb sends it again after two seconds, and then
//! takes each answer for that of the packet behind. An interrupt before it is passed over.
//!
//! Proved: `greet` hears bytes to the end of the first packet, or to the last byte if no packet comes (`Greets`). The
//! packet is acknowledged and not answered yet, and just what has to be said at once is said. `talk` goes on from there
//! byte by byte (`Talked`). It says just the acks, the frames again if they are wanted, and the frames of the partner's
//! answers. It ends at the answer that ends the session, if nothing is left to hear, or after 2^64 - 1 bytes. Both say
//! so of the conversation's one history: what is owed for a byte stands behind it and before the next byte that is
//! heard. `Streams` is a conversation over any source and sink; its history is what the one lost and the other got. A
//! fault comes only if its count rose. Of a session that breaks off, for a fault or want of memory, a front has passed:
//! only of the last byte, and of what is owed for it, a part may be missing (`GreetsInPart`, `TalkedInPart`).
#![tactic(auto)]

mod conversation;
mod hearing;
mod partner;
mod sessions;

pub use conversation::{Conversation, Streams};
pub use hearing::TalkFault;
pub use partner::{Answer, Next, Partner};
pub use sessions::{greet, talk};
