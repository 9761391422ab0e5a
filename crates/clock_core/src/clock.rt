//! Vector clocks.
ghost use Rattle.std.specs.Prelude.{◌≡◌, ◌≢◌, ℕ, ◌<◌, ◌≤◌, ◌↔◌, IsTrue, length, max, slice_index, slice_set};
ghost use Rattle.clock_core.specs.Counts.{merged, no_counts};
ghost use Rattle.rtr_types.specs.declared.TheConstants.{CORES_MAX};

use rtr_types::{CORES_MAX, Instr};
use std::marker::Model;

/// A place for each core, as the length of an array.
const PLACES: usize = CORES_MAX as usize;

/// A vector clock: for each core the number of its first instructions that are known of. Contracts
/// see it as the list of its counts, core 0 first.
#[derive(Clone, Copy, Debug, PartialEq, Eq)]
pub struct Clock {
    counts: [u32; PLACES],
}

impl Model for Clock {
    ghost use Rattle.std.specs.Prelude.{ℕ, List};

    ghost Value = { List ℕ };

    ghost view = { λ c. c.counts };

    ghost inverse = { λ counts. record { counts = counts } };
}

impl Default for Clock {
    fn default() -> Self
        ensures { result ≡ no_counts }
    {
        Clock::zero()
    }
}

impl Clock {
    /// The clock that knows of no instruction.
    pub fn zero() -> Clock
        ensures { result ≡ no_counts }
    {
        Clock {
            counts: [0; PLACES],
        }
    }

    /// The count at the core's place.
    pub fn get(&self, core: u8) -> u32
        requires { core < CORES_MAX }
        ensures { result ≡ slice_index self.now core }
    {
        self.counts[core as usize]
    }

    /// The count at each core's place, core 0 first.
    pub fn as_slice(&self) -> &[u32]
        ensures value { result.now ≡ self.now }
        ensures places { length self.now ≡ CORES_MAX }
    {
        &self.counts
    }

    /// Puts the count at the core's place and keeps all others.
    pub fn set(&mut self, core: u8, count: u32)
        requires { core < CORES_MAX }
        ensures value { self.new ≡ slice_set self.old core count }
        ensures at { slice_index self.new core ≡ count }
        ensures others { (i : ℕ) → i ≢ core → slice_index self.new i ≡ slice_index self.old i }
    {
        self.counts[core as usize] = count;
    }

    /// The greater count at each place.
    pub fn merge(self, other: Clock) -> Clock
        ensures value { result ≡ merged self other }
        ensures places { (i : ℕ) → slice_index result i ≡ max (slice_index self i) (slice_index other i) }
    {
        let mut greater = self;
        greater.join(&other);
        greater
    }

    /// Takes over each greater count of the other.
    pub fn join(&mut self, other: &Clock)
        ensures value { self.new ≡ merged self.old other.now }
        ensures places { (i : ℕ) → slice_index self.new i ≡ max (slice_index self.old i) (slice_index other.now i) }
    {
        let mut counts = self.counts;
        for core in 0..PLACES {
            counts[core] = counts[core].max(other.counts[core]);
        }
        self.counts = counts;
    }

    /// Whether the clock knows of the instruction: its count is at most the one at its core's place.
    pub fn covers(&self, at: Instr) -> bool
        requires { at.core < CORES_MAX }
        ensures { IsTrue result ↔ (at.count ≤ slice_index self.now at.core) }
    {
        self.get(at.core) >= at.count
    }
}
