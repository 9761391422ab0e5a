//! The parameters of a run.
ghost use Rattle.std.specs.Prelude.{◌≡◌, ◌↔◌, IsTrue};
ghost use Rattle.rtr_types.specs.Parameters.{Fits};
ghost use Rattle.rtr_types.specs.Sizes.{block_words, cache_lines, cores_max, instructions_max, limit_max, words_max};
ghost use Rattle.rtr_types.specs.Sizes.{words_min};

use crate::{BLOCK_WORDS, CORES_MAX, LINES};

/// The greatest number of instructions that one core may be given.
pub const LIMIT_MAX: u32 = 1_000_000;

/// The greatest number of instructions that all cores together may be given: it bounds the number of
/// cores times the instructions that each may be given.
pub const INSTRUCTIONS_MAX: u32 = 4_000_000;

/// The fewest words that a memory has: one block.
pub const WORDS_MIN: u32 = 4;

/// The most words that a memory has: 1 MiB.
pub const WORDS_MAX: u32 = 262_144;

/// How a run is set up: the number of cores, 1 to 16; the greatest number of instructions that each
/// core retires, 1 to 1,000,000, where the cores times this limit are at most 4,000,000; and the words
/// of the memory, a multiple of 4 from 4 to 262,144.
#[derive(Clone, Copy, Debug, PartialEq, Eq)]
pub struct Params {
    pub cores: u8,
    pub limit: u32,
    pub words: u32,
}

impl Params {
    /// Whether the three numbers lie in their ranges, and the cores times the limit in theirs.
    pub fn fits(&self) -> bool
        ensures { IsTrue result ↔ Fits self.now }
    {
        let cores = 1 <= self.cores && self.cores <= CORES_MAX;
        let limit = 1 <= self.limit && self.limit <= LIMIT_MAX;
        let instructions = self.cores as u64 * self.limit as u64 <= INSTRUCTIONS_MAX as u64;
        let blocks = self.words as usize % BLOCK_WORDS == 0;
        let words = WORDS_MIN <= self.words && self.words <= WORDS_MAX && blocks;
        cores && limit && instructions && words
    }
}

/// The sizes as numbers: what the constants are that every layer cites.
pub fn sizes_law()
    ensures cores { CORES_MAX ≡ cores_max }
    ensures limit { LIMIT_MAX ≡ limit_max }
    ensures instructions { INSTRUCTIONS_MAX ≡ instructions_max }
    ensures words { WORDS_MIN ≡ words_min }
    ensures most_words { WORDS_MAX ≡ words_max }
    ensures block { BLOCK_WORDS ≡ block_words }
    ensures lines { LINES ≡ cache_lines }
{}
