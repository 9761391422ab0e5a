//! The choices of a schedule, one after the other.
ghost use Rattle.std.specs.Prelude.{◌≡◌, ℕ, ◌+◌, IfOk};
ghost use Rattle.rand_pcg.specs.Lcg.{increment_of, started};
ghost use Rattle.rand_pcg.specs.Pcg.{multiplier_64};
ghost use Rattle.schedule_pick.specs.Choices.{choice_at, choices_after, choices_of};

use rand_core::utils::NextWord;
use rand_pcg::Lcg64Xsh32;
use std::alloc::{AllocError, Global};
use std::marker::Model;

/// The choices that are left: the bytes that weren't taken, and then the words of PCG's generator
/// XSH RR 64/32 (O'Neill 2014) at stream 0. Bytes that a run doesn't reach are ignored.
#[derive(Drop)]
pub struct Schedule {
    words: Lcg64Xsh32,
    bytes: Vec<u8>,
    next: usize,
}

impl Model for Schedule {
    ghost use Rattle.std.specs.Prelude.{drop, length, ◌≤◌};
    ghost use Rattle.schedule_pick.specs.Choices.{Choices};

    ghost Value = { Choices };

    ghost view = { λ s. record { words = s.words; bytes = drop s.next s.bytes.items } };

    ghost invariant = { λ s. s.next ≤ length s.bytes.items };
}

impl Schedule {
    /// The schedule of these bytes and, after the last one, of the generator with this seed.
    pub fn new(bytes: Vec<u8>, seed: u64) -> Schedule
        ensures { result ≡ choices_of bytes.items seed }
    {
        Schedule {
            bytes,
            next: 0,
            words: Lcg64Xsh32::new(seed, 0),
        }
    }

    /// A schedule of the same choices. The only refusal is want of memory.
    pub fn copied(&self, alloc: Global) -> Result<Schedule, AllocError>
        ensures { IfOk result (λ copy. copy ≡ self.now) }
    {
        Ok(Schedule {
            bytes: self.bytes[self.next..].to_vec(alloc)?,
            next: 0,
            words: self.words.clone()?,
        })
    }

    /// The next choice: the next byte, or after the last one the next word.
    pub fn next(&mut self) -> u32
        ensures choice { result ≡ choice_at self.old 0 }
        ensures rest { self.new ≡ choices_after self.old }
    {
        if self.next < self.bytes.len() {
            let choice = self.bytes[self.next];
            self.next += 1;
            choice.into()
        } else {
            self.words.next_word()
        }
    }
}
