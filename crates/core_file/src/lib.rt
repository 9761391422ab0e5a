//! The state at a cut as an ELF core file, which a debugger opens: each core as a thread with its registers, and the
//! memory.
//!
//! Every core has the signal of a trap, whatever its program stopped by, since gdb asks for one.
//!
//! Proved: `core_file` answers the definition's bytes, section by section. These are header, two program headers, a
//! note of each core, the asked one first, and the memory. That gdb shows what they say is only tested, by
//! `tests/core_in_gdb`, which isn't part of the gate.
#![tactic(auto)]

mod core_bytes;

pub use core_bytes::core_file;
