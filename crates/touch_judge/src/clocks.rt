//! The clocks of instructions by a log. They are kept only where an edge leads to.
ghost use Rattle.std.specs.Prelude.{◌≡◌, ◌<◌, ◌≤◌, ℕ, IfOk, OnOk, [], length, replicate, slice_index};
ghost use Rattle.rtr_types.specs.declared.TheConstants.{CORES_MAX};
ghost use Rattle.replay_core.specs.Sources.{sources_in};
ghost use Rattle.replay_audit.specs.Clocks.{AreRising, CanNote, IsKept, IsNoted, clock_at, clocks_of, next_at};
ghost use Rattle.replay_audit.specs.Clocks.{number_of, number_to, numbered};

use clock_core::Clock;
use replay_core::Sourced;
use rtr_types::{CORES_MAX, Instr, Items};
use std::alloc::{AllocError, Global};
use std::marker::Model;

/// For each core the clocks of its instructions to which an edge leads, by rising count: a clock has its
/// instruction's own count at its core's place.
#[derive(Drop)]
pub(crate) struct Clocks {
    clocks: Vec<Items<Clock>>,
}

impl Model for Clocks {
    ghost use Rattle.replay_audit.specs.Clocks.{Kept};
    ghost use Rattle.touch_judge.specs.Runs.{EachRises};

    ghost Value = { Kept };

    ghost view = { λ a. record { clocks = a.clocks.items } };

    ghost invariant = { λ a. EachRises a.clocks.items };
}

impl Clocks {
    /// No instruction yet, of so many cores.
    pub(crate) fn new(alloc: Global, cores: u8) -> Result<Clocks, AllocError>
        ensures { IfOk result (λ kept. kept.clocks ≡ replicate cores []) }
    {
        let mut clocks = Vec::new(alloc);
        for core in 0..cores {
            clocks.push(Items::new(alloc))?;
        }
        Ok(Clocks { clocks })
    }

    /// The last clock that is kept of the core, or the one that knows of nothing.
    pub(crate) fn last(&self, core: u8) -> Clock
        ensures { result ≡ numbered self.now core (length (clocks_of self.now core)) }
    {
        self.numbered(core, self.list(core).len())
    }

    /// Notes the next instruction of its core, of so many cores.
    pub(crate) fn note(&mut self, next: &Sourced, cores: u8) -> Result<(), AllocError>
        requires next { CanNote self.old next.now.at }
        requires few { cores ≤ CORES_MAX }
        ensures { OnOk result (IsNoted self.old next.now.at (sources_in next.now.sources.now) cores self.new) }
    {
        match next.sources {
            Some(sources) => self.keep(next.at, sources, cores),
            None => Ok(()),
        }
    }

    /// The clock of an instruction that was noted, or of none, before the first: the last clock that is
    /// kept of its core up to it, with its own count.
    fn of(&self, at: Instr) -> Clock
        requires { at.core < CORES_MAX }
        ensures { (i : ℕ) → slice_index result i ≡ clock_at self.now at i }
    {
        let mut clock = self.numbered(at.core, number(self.list(at.core), at));
        // A clock has a place for each core.
        let _ = clock.as_slice();
        clock.set(at.core, at.count);
        clock
    }

    /// The clocks that are kept of the core.
    fn list(&self, core: u8) -> &[Clock]
        ensures list { result.now ≡ clocks_of self.now core }
        ensures rising { AreRising core result.now }
    {
        match self.clocks.get(core as usize) {
            Some(list) => list.as_slice(),
            None => &[],
        }
    }

    /// The core's clock with this number, counted from 1; number 0 is the clock that knows of nothing.
    fn numbered(&self, core: u8, number: usize) -> Clock
        ensures { result ≡ numbered self.now core number }
    {
        if number == 0 {
            return Clock::zero();
        }
        match self.list(core).get(number - 1) {
            Some(clock) => *clock,
            None => Clock::zero(),
        }
    }

    /// The clock of the instruction before on the core, merged with those of the sources, with the own
    /// count.
    fn next(&self, at: Instr, sources: &Clock, cores: u8) -> Clock
        requires next { CanNote self.now at }
        requires few { cores ≤ CORES_MAX }
        ensures { (i : ℕ) → slice_index result i ≡ next_at self.now at sources.now cores i }
    {
        let Instr { core, count } = at;
        // All clocks of the core are of instructions before it.
        let mut clock = self.last(core);
        clock.set(core, count - 1);
        for of in 0..cores {
            let source = sources.get(of);
            if source != 0 {
                clock.join(&self.of(Instr {
                    core: of,
                    count: source,
                }));
            }
        }
        clock.set(core, count);
        clock
    }

    /// Keeps the clock of an instruction that has these sources.
    fn keep(&mut self, at: Instr, sources: &Clock, cores: u8) -> Result<(), AllocError>
        requires next { CanNote self.old at }
        requires few { cores ≤ CORES_MAX }
        ensures { OnOk result (IsKept self.old at sources.now cores self.new.clocks) }
    {
        let clock = self.next(at, sources, cores);
        self.clocks[at.core as usize].push(clock)?;
        Ok(())
    }
}

/// How many of a core's clocks are of instructions up to this one.
fn number(list: &[Clock], at: Instr) -> usize
    requires core { at.core < CORES_MAX }
    requires rising { AreRising at.core list.now }
    ensures { result ≡ number_to list.now at.core at.count }
{
    let mut low = 0;
    let mut high = list.len();
    while low < high {
        let middle = low + (high - low) / 2;
        if list[middle].get(at.core) <= at.count {
            low = middle + 1;
        } else {
            high = middle;
        }
    }
    low
}
