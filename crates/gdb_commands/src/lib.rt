//! The commands of the debugger's user as texts: what each means, and how what is told is answered.
//!
//! A text is words between spaces, of which the first names the command. Of one that is no command it is told how its
//! command goes, or which there are. A text for the user goes in payloads, each of a size that a packet has.
//!
//! Proved: `command_of` gives each text the meaning that the grammar gives it, and `unmeant_told` tells the definition's
//! text. `payloads_of`: one payload, or one for each part of at most 1000 bytes, in order, and one more. Each is refused
//! for want of memory alone.
#![tactic(auto)]

mod commands;
mod filters;
mod forms;
pub mod laws;
mod lines;
mod numbers;
mod payloads;
mod words;

pub use commands::{Command, command_of};
pub use filters::Filter;
pub use forms::unmeant_told;
pub use lines::{Put, Told, bytes_of, line, put_counts};
pub use payloads::payloads_of;

/// The most bytes of a text that one frame has.
pub const FRAME_MAX: usize = 1000;
