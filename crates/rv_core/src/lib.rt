//! One core: what its next instruction needs of memory, and its state after it. It is a core of RV32I (RISC-V
//! Unprivileged ISA, version 20191213, chapter 2) with the nine atomic memory operations on a word of chapter 8. The
//! layers above know an instruction only by what it needs, leaves and writes, and by the laws of the module `laws`.
//!
//! A core's fields are public plain data, since layers above compare whole cores. A register past x31 reads 0, so the
//! core needs no premise about it. The laws of a step go by whether the needed access reads or writes, never by its
//! name. An instruction retires by one match, in place of one for each part of the state. `Program` decodes each word
//! of the image once. The parts of an instruction (`operations`, `branches`, `lane_access`, `atomics`) are public, for
//! crates that carry many instructions out in one go.
//!
//! Proved: `Core::need` and `finish` are the definitions `need`, `after` and `wrote`. The module `laws` has the laws of
//! a step, by whether the needed access reads and writes its word. `Program::op` is the instruction at an address by
//! its definition. `store_mask` is the mask and bits of a store. For every old word they give what the store writes,
//! and the bits lie within the mask (`masks_give_what_stores_write`).
#![tactic(auto)]

pub mod atomics;
pub mod branches;
mod core_state;
pub mod lane_access;
pub mod laws;
pub mod operations;
mod outcome;
mod program;

pub use core_state::{Core, Halt, Need, REGISTERS, Stop};
pub use outcome::{LoadNote, Outcome};
pub use program::Program;
