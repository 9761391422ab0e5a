//! A block at the home.
use rtr_types::{BLOCK_WORDS, CoreSet};

/// How the home has a block: no cache holds it; some share it; one owns it; acknowledgements are awaited from those
/// that shared it; or its owner's data are, for a core that is to share it or to own it.
#[derive(Clone, Copy)]
pub enum Held {
    Unshared,
    Shared,
    Owned,
    Acks,
    ToShare,
    ToOwn,
}

/// The entry of a block that was asked for.
#[derive(Clone, Copy)]
pub struct HomeBlock {
    /// The block's number in the memory.
    pub block: u32,
    /// How it is held.
    pub held: Held,
    /// The cores that share it, or whose acknowledgements are awaited. It is empty where the block is unshared.
    pub set: CoreSet,
    /// The core that owns it, or whose data are awaited.
    pub owner: u8,
    /// For whom acknowledgements or data are awaited.
    pub requester: u8,
    /// The cores whose request on its way is for this block.
    pub askers: CoreSet,
    /// Its words, which stand here alone: a copy is the right to read or write them.
    pub words: [u32; BLOCK_WORDS],
}
