//! Data accesses, and what their kinds do to memory.
ghost use Rattle.std.specs.Prelude.{◌≡◌};
ghost use Rattle.rtr_types.specs.Accesses.{is_read, is_write};

use crate::instr::Instr;

/// What an access does to its word: a load reads it, a store writes it, and an atomic memory operation
/// does both in one step.
#[derive(Clone, Copy, Debug, PartialEq, Eq)]
pub enum Kind {
    Load,
    Store,
    Amo,
}

impl Kind {
    /// Whether an access of this kind takes the word's value.
    pub fn is_read(self) -> bool
        ensures { result ≡ is_read self }
    {
        match self {
            Kind::Load | Kind::Amo => true,
            Kind::Store => false,
        }
    }

    /// Whether an access of this kind may change the word.
    pub fn is_write(self) -> bool
        ensures { result ≡ is_write self }
    {
        match self {
            Kind::Load => false,
            Kind::Store | Kind::Amo => true,
        }
    }
}

/// A data access of a retired instruction. A location is an aligned 32-bit word, named by its index,
/// `address / 4`, also where the instruction reads or writes only a part of it. `before` and `after`
/// are the whole word's values around the access.
#[derive(Clone, Copy, Debug, PartialEq, Eq)]
pub struct Access {
    pub at: Instr,
    pub word: u32,
    pub kind: Kind,
    pub before: u32,
    pub after: u32,
}
