//! What a debugger is told of a place: registers, memory and threads, and the description of the machine.
//!
//! A core that waits is told with the instructions that it waits for, and one that has come to its end with how its
//! program ends.
//!
//! Proved: `registers_reply`, `register_reply` and `memory_reply` tell the registers and words of the place's state, each
//! word's lowest byte first. `thread_text` and `threads_text` tell how far cores have come, and what they wait for by the
//! log. `part_reply` answers the part of a text that is asked for. Each is refused for want of memory alone.
#![tactic(auto)]

mod memory;
mod parts;
mod registers;
mod target;
mod threads;
mod waits;

pub use memory::memory_reply;
pub use parts::part_reply;
pub use registers::{register_reply, registers_reply};
pub use target::TARGET;
pub use threads::{thread_text, threads_text};
