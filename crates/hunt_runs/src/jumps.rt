//! Which cores go round.
ghost use Rattle.std.specs.Prelude.{◌≡◌, ◌≤◌, ◌<◌, IfOk, length};
ghost use Rattle.rtr_types.specs.declared.TheConstants.{CORES_MAX};
ghost use Rattle.hunt_runs.specs.Jumping.{jumps_after, goes_back, no_jumps, stands_as, unless_changed, with_jump};

use rtr_types::CoreSet;
use run_steps::Made;
use rv_core::Core;
use std::alloc::Global;
use std::marker::Model;

/// Where a core stands: the address of its next instruction, and how many it has executed.
#[derive(Clone, Copy, Debug, PartialEq, Eq)]
pub struct Spot {
    pub pc: u32,
    pub count: u32,
}

/// What is remembered of the cores' jumps since a word changed last.
#[derive(Drop)]
pub(crate) struct Jumps {
    back: CoreSet,
    last: Vec<Core>,
    round: CoreSet,
}

impl Model for Jumps {
    ghost use Rattle.hunt_runs.specs.Jumping.{Jumped};

    ghost Value = { Jumped };

    ghost view = { λ j. record { back = j.back; last = j.last.items; round = j.round } };
}

impl Jumps {
    /// Nothing is remembered yet of so many cores. The only refusal is want of memory.
    pub fn new(alloc: Global, cores: u8) -> Made<Jumps>
        ensures { IfOk result (λ jumps. jumps ≡ no_jumps cores) }
    {
        let mut last = Vec::with_capacity(alloc, cores as usize)?;
        for _core in 0..cores {
            last.push(Core::new(0, 0))?;
        }
        Ok(Jumps {
            back: CoreSet::empty(),
            last,
            round: CoreSet::empty(),
        })
    }

    /// The cores that go round.
    pub fn round(&self) -> CoreSet
        ensures { result ≡ self.now.round }
    {
        self.round
    }

    /// A step of this core was taken that left so many stores in its buffer, and changed a word or not.
    #[inline(always)]
    pub fn note(&mut self, core: u8, before: Spot, after: &Core, stores: usize, changed: bool)
        requires core { core < length self.old.last }
        requires few { length self.old.last ≤ CORES_MAX }
        ensures { self.new ≡ jumps_after core before after.now stores changed self.old }
    {
        if changed {
            self.back = CoreSet::empty();
            self.round = CoreSet::empty();
        }
        if goes_back(before, after) {
            self.note_back(core, after, stores);
        }
    }

    /// This core went back.
    fn note_back(&mut self, core: u8, after: &Core, stores: usize)
        requires core { core < length self.old.last }
        requires few { length self.old.last ≤ CORES_MAX }
        ensures { self.new ≡ with_jump core after.now stores self.old }
    {
        if self.back.has(core) && stores == 0 && stands_as(&self.last[core as usize], after) {
            self.round = self.round.with(core);
        }
        self.back = self.back.with(core);
        self.last[core as usize] = *after;
    }
}

/// Whether in a step the core executed an instruction, and its pc is now at most that of the instruction.
fn goes_back(before: Spot, after: &Core) -> bool
    ensures { result ≡ goes_back before after.now }
{
    after.count != before.count && after.pc <= before.pc
}

/// Whether the two have the same pc and the same registers.
fn stands_as(core: &Core, other: &Core) -> bool
    ensures { result ≡ stands_as core.now other.now }
{
    core.pc == other.pc && core.registers == other.registers
}
