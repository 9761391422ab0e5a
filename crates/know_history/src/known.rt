//! The carry that counts the instructions that are known.
ghost use Rattle.std.specs.Prelude.{◌≡◌, ◌<◌, length, slice_index};
ghost use Rattle.rtr_types.specs.declared.TheConstants.{CORES_MAX};

use access_times::Carry;
use clock_core::Clock;
use rtr_types::{CORES_MAX, Instr};

/// How many of each core's first instructions are known.
#[derive(Clone, Copy, Debug, PartialEq, Eq)]
pub struct Known {
    counts: Clock,
}

impl Known {
    /// How many of the core's instructions are known.
    pub fn count(&self, core: u8) -> u32
        requires { core < CORES_MAX }
        ensures { result ≡ slice_index self.now.counts core }
    {
        self.counts.get(core)
    }

    /// How many of each core's instructions are known, as a clock.
    pub(crate) fn clock(&self) -> &Clock
        ensures { result.now ≡ self.now.counts }
    {
        &self.counts
    }

    /// How many of each core's instructions are known, core 0 first.
    pub fn counts(&self) -> &[u32]
        ensures value { result.now ≡ self.now.counts }
        ensures places { length self.now.counts ≡ CORES_MAX }
    {
        self.counts.as_slice()
    }
}

impl Carry for Known {
    ghost use Rattle.know_history.specs.Knowledge.{known_carrying};

    ghost carrying = { known_carrying };

    fn none() -> Self {
        Known {
            counts: Clock::zero(),
        }
    }

    fn join(&mut self, other: &Self) {
        self.counts.join(&other.counts);
    }

    fn retire(&mut self, at: Instr) {
        if at.core < CORES_MAX {
            self.counts.set(at.core, at.count);
        }
    }
}
