//! The debugger's program but for `main`: a session with a debugger on a recording, in a conversation, and the core
//! file of a moment. The words of the latter are those of `rtr at`, which prints the same state.
//!
//! Proved: at `Done`, `debug` held a session by `gdb_session`'s definitions, and `write_core` gave the core file of the
//! moment; at a fault or for want of memory, `debug` held a front of a session (clauses `answered`). These clauses
//! stand one by one in docs/PROVED.md.
#![tactic(auto)]

mod cores;
mod debugger;
mod laws;
mod opened;
mod program;
mod recordings;
mod sessions;
mod tool;
mod uses;
mod words;

pub use debugger::run_debugger;
pub use laws::one_core_file;
pub use program::{conclude, run_program};
pub use sessions::debug;
pub use tool::write_core;
pub use words::{Moment, file_name, moment_in, session_log};
