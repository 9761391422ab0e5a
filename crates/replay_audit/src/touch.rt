//! Accesses without their values.

use rtr_types::{Access, Instr, Kind};

/// An access without its values: the instruction, the index of the word, and whether it reads or writes.
#[derive(Clone, Copy, Debug, PartialEq, Eq)]
pub struct Touch {
    pub at: Instr,
    pub word: u32,
    pub kind: Kind,
}
