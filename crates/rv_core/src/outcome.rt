//! What a run or a replay leaves.

use crate::core_state::Core;
use rtr_types::Items;

/// What a retired load or atomic memory operation of one core read: the instruction's count, the index of
/// its word, and the value that the whole word had before it.
#[derive(Clone, Copy, Debug, PartialEq, Eq)]
pub struct LoadNote {
    pub count: u32,
    pub word: u32,
    pub value: u32,
}

/// What a run or a replay leaves: the cores by number, the words of memory by index, and for each
/// core what its loads and atomic memory operations read, in program order.
pub struct Outcome {
    pub cores: Items<Core>,
    pub words: Items<u32>,
    pub loads: Items<Items<LoadNote>>,
}

impl Drop for Outcome {
    fn drop(self) {
        let Outcome {
            cores: _cores,
            words: _words,
            loads: _loads,
        } = self;
    }
}
