//! Runs that were worked out by hand: what they begin with, and what they leave.
ghost use Rattle.std.specs.Prelude.{◌≡◌};

use rtr_types::Params;
use rv_core::{LoadNote, Outcome};
use schedule_pick::Schedule;
use std::alloc::{AllocError, Global};
use std::process::Abort;

/// Core 0 stores 7 to word 16 as its third instruction and loads it as its fourth; core 1 loads the word
/// as its second and stores its number, 1, there as its third.
pub static HANDED_OVER: [u32; 8] = [
    0x0005_1a63,
    0x00700293,
    0x04502023,
    0x04002303,
    0x00000073,
    0x04002383,
    0x04a02023,
    0x00000073,
];

/// Choices that let core 1's load come after the first store, and its store before core 0's load.
pub static IN_TURN: [u8; 16] = [0, 0, 0, 1, 1, 1, 1, 1, 1, 1, 1, 1, 1, 1, 1, 1];

/// So many cores of a hundred instructions at the most, over so many words.
pub fn params_of(cores: u8, words: u32) -> Params
    ensures { result ≡ record { cores = cores; limit = 100; words = words } }
{
    Params {
        cores,
        limit: 100,
        words,
    }
}

/// These choices, and after them the generator's.
pub fn schedule_of(alloc: Global, choices: &[u8]) -> Result<Schedule, AllocError> {
    Ok(Schedule::new(choices.to_vec(alloc)?, 0))
}

/// The run leaves this value in the word.
pub fn leaves(rt: &impl Abort, outcome: &Outcome, word: usize, value: u32) {
    assert!(rt; outcome.words.as_slice().get(word).copied() == Some(value));
}

/// The load of the word as the core's instruction with this count.
pub fn load(count: u32, word: u32, value: u32) -> LoadNote {
    LoadNote { count, word, value }
}
