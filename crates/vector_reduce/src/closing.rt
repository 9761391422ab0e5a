//! A cut that is being closed.
ghost use Rattle.std.specs.Prelude.{◌≡◌, ◌<◌, ◌-◌, ◌^◌, ◌↔◌, ℕ, length, IsTrue};
ghost use Rattle.rtr_types.specs.declared.TheConstants.{CORES_MAX};
ghost use Rattle.vector_reduce.specs.Arrivals.{Passes, Raises, Takes, counts_of, passed_of};
ghost use Rattle.vector_reduce.specs.Cuts.{Holds};

use rtr_types::{CORES_MAX, Cut, Instr};

/// A place for each core, as the length of an array.
pub(crate) const PLACES: usize = CORES_MAX as usize;

/// A cut that is being closed: for each core how many of its instructions lie in it, and how many of the
/// core's arrivals were gone past.
#[derive(Clone, Copy)]
pub struct Closing {
    pub counts: [u32; PLACES],
    pub passed: [usize; PLACES],
}

impl Closing {
    /// Nothing lies in the cut.
    pub fn none() -> Closing
        ensures counts { (core : ℕ) → counts_of result core ≡ 0 }
        ensures passed { (core : ℕ) → passed_of result core ≡ 0 }
    {
        Closing {
            counts: [0; PLACES],
            passed: [0; PLACES],
        }
    }

    /// Puts an instruction and those before it on its core into the cut.
    pub fn raise(&mut self, at: Instr)
        requires { at.core < CORES_MAX }
        ensures { Raises self.old at self.new }
    {
        let count = self.counts[at.core as usize];
        self.counts[at.core as usize] = count.max(at.count);
    }

    /// Puts the source of an edge into the cut, where the edge counts.
    pub fn take(&mut self, counts: bool, from: Instr)
        requires { from.core < CORES_MAX }
        ensures { Takes self.old counts from self.new }
    {
        if counts {
            self.raise(from);
        }
    }

    /// Goes past an arrival of the core.
    pub fn pass(&mut self, core: u8)
        requires core { core < CORES_MAX }
        requires fits { passed_of self.old core < 2 ^ 64 - 1 }
        ensures { Passes self.old core self.new }
    {
        self.passed[core as usize] += 1;
    }

    /// Whether the instruction lies in the cut.
    pub fn holds(&self, at: Instr) -> bool
        requires { at.core < CORES_MAX }
        ensures { IsTrue result ↔ Holds (counts_of self.now) at }
    {
        at.count <= self.counts[at.core as usize]
    }

    /// The cut of so many cores.
    pub fn cut(&self, cores: u8) -> Cut
        ensures cores { result.cores ≡ cores }
        ensures counts { result.counts ≡ self.now.counts }
        ensures places { length result.counts ≡ CORES_MAX }
    {
        Cut {
            cores,
            counts: self.counts,
        }
    }
}
