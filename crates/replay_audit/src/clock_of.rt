//! The clock of one instruction, which is not copied.
ghost use Rattle.std.specs.Prelude.{◌≡◌, ◌<◌, ◌≤◌, ◌↔◌, ℕ, IsTrue, slice_index};
ghost use Rattle.rtr_types.specs.declared.TheConstants.{CORES_MAX};
ghost use Rattle.clock_core.specs.Reach.{with_own};

use clock_core::Clock;
use rtr_types::{CORES_MAX, Instr};
use std::marker::Model;

/// The clock of an instruction: a clock that is kept of its core, with the instruction's own count. Contracts
/// see it as the list of its counts.
#[derive(Drop)]
pub struct ClockOf<'a> {
    at: Instr,
    last: &'a Clock,
}

impl<'a> Model for ClockOf<'a> {
    ghost use Rattle.std.specs.Prelude.{ℕ, List, ◌<◌, length, slice_set};

    ghost Value = { List ℕ };

    ghost view = { λ a. slice_set a.last.now a.at.core a.at.count };

    ghost invariant = { λ a. a.at.core < length a.last.now };
}

impl<'a> ClockOf<'a> {
    /// This clock with the instruction's own count.
    pub fn new(at: Instr, last: &'a Clock) -> ClockOf<'a>
        requires { at.core < CORES_MAX }
        ensures { (i : ℕ) → slice_index result i ≡ with_own at (λ j. slice_index last.now j) i }
    {
        // A clock has a place for each core.
        let _ = last.as_slice();
        ClockOf { at, last }
    }

    /// The count at the core's place.
    pub fn get(&self, core: u8) -> u32
        requires { core < CORES_MAX }
        ensures { result ≡ slice_index self.now core }
    {
        if core == self.at.core {
            self.at.count
        } else {
            self.last.get(core)
        }
    }

    /// Whether the clock knows of the instruction.
    pub fn covers(&self, at: Instr) -> bool
        requires { at.core < CORES_MAX }
        ensures { IsTrue result ↔ (at.count ≤ slice_index self.now at.core) }
    {
        self.get(at.core) >= at.count
    }

    /// The same clock, copied.
    pub fn to_clock(&self) -> Clock
        ensures { result ≡ self.now }
    {
        // A clock has a place for each core.
        let _ = self.last.as_slice();
        let mut clock = *self.last;
        clock.set(self.at.core, self.at.count);
        clock
    }
}
