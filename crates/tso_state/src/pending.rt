//! The accesses that a core has executed and that aren't ordered yet.
//!
//! Rule: pending accesses of a core with a store buffer: Pending, Asker
ghost use Rattle.std.specs.Prelude.{◌≡◌};
ghost use Rattle.tso_state.specs.Sizes.{pending_max, stores_max};

/// How many accesses of a core may be pending.
pub const PENDING_MAX: usize = 16;

/// How many of them may be stores.
pub const STORES_MAX: usize = 4;

/// The sizes of a store buffer as numbers: at most 16 accesses of a core are pending, and at most 4 of them are
/// stores. Whether another has room is told by these constants.
pub fn sizes_law()
    ensures pending { PENDING_MAX ≡ pending_max }
    ensures stores { STORES_MAX ≡ stores_max }
{}

/// A pending access of a core. A core's instructions are counted from 1, and a word's index is its address
/// divided by 4.
#[derive(Clone, Copy, Debug, PartialEq, Eq)]
pub enum Pending {
    /// A load: the count of its instruction, the index of its word, and the value that it got.
    Load {
        count: u32,
        word: u32,
        value: u32,
    },
    /// A store: the count of its instruction, the index of its word, which bits of the word it replaces, and
    /// what they become. The other bits of `bits` are 0.
    Store {
        count: u32,
        word: u32,
        mask: u32,
        bits: u32,
    },
}

/// The requester of a core's outstanding miss: for whose access its port waits.
#[derive(Clone, Copy, Debug, PartialEq, Eq)]
pub enum Asker {
    /// The port doesn't wait.
    Nobody,
    /// For that of the core's next instruction, which is a load or an atomic memory operation.
    Next,
    /// For that of the oldest pending access, which is a store.
    Head,
}
