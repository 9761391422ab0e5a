//! The low order, place by place.
ghost use Rattle.std.specs.Prelude.{◌≡◌, ◌<◌, ◌≤◌, ◌+◌, ◌-◌, ◌↔◌, ℕ, Some, length, slice_index, replicate};
ghost use Rattle.std.specs.Prelude.{IfOk, IsTrue};
ghost use Rattle.rtr_types.specs.declared.TheConstants.{CORES_MAX};
ghost use Rattle.race_log.specs.Validity.{Valid};
ghost use Rattle.replay_core.specs.Plans.{plan_of};
ghost use Rattle.replay_core.specs.Orders.{Full, lowest, lowest_ready};
ghost use Rattle.replay_core.specs.Sources.{sources_in};
ghost use Rattle.replay_core.specs.Tallies.{AreAwaited, IsGoneOn, IsNextInstr, IsOneMore, IsRun, count_of};

use crate::coming::PLACES;
use crate::sourced::Sourced;
use crate::tally::Tally;
use race_log::Recording;
use rtr_types::Which;
use std::alloc::{AllocError, Global};
use std::marker::Model;

/// A tally along the low order, with the lowest core that is ready. Which cores below it are ready is looked
/// at again only where a core comes as far as one of them waits for. `guesses` has for each core the core of the source
/// that it waited for last, which is looked at first.
#[derive(Drop)]
pub struct LowOrder<'a> {
    tally: Tally<'a>,
    low: Option<u8>,
    until: [u32; PLACES],
    guesses: [u8; PLACES],
}

impl<'a> Model for LowOrder<'a> {
    ghost use Rattle.replay_core.specs.Tallies.{Tallied, IsLow};

    ghost Value = { Tallied };

    ghost view = { λ a. a.tally };

    ghost invariant = { λ a. IsLow a.tally a.low a.until };
}

impl<'a> LowOrder<'a> {
    /// Before the first place.
    pub fn new(alloc: Global, recording: &'a Recording, which: Which) -> Result<Self, AllocError>
        requires { Valid recording.now }
        ensures plan { IfOk result (λ order. order.plan ≡ plan_of which recording.now) }
        ensures counts { IfOk result (λ order. order.counts ≡ replicate (length recording.now.totals) 0) }
    {
        let tally = Tally::new(alloc, recording, which)?;
        let mut until = [u32::MAX; PLACES];
        let mut guesses = [0; PLACES];
        let low = lowest_from(&tally, 0, &mut until, &mut guesses);
        Ok(LowOrder {
            tally,
            low,
            until,
            guesses,
        })
    }

    /// How many cores there are.
    pub fn cores(&self) -> u8
        ensures all { result ≡ length self.now.plan.totals }
        ensures few { result ≤ CORES_MAX }
    {
        self.tally.cores()
    }

    /// The lowest-numbered core that is ready.
    pub fn lowest(&self) -> Option<u8>
        ensures { result ≡ lowest_ready self.now.plan (count_of self.now.counts) }
    {
        self.low
    }

    /// The next instruction of a core below its total, with its logged sources.
    pub fn next(&self, core: u8) -> Sourced<'_>
        requires inside { core < length self.now.plan.totals }
        requires below { count_of self.now.counts core < slice_index self.now.plan.totals core }
        ensures { IsNextInstr self.now core result.at (sources_in result.sources.now) }
    {
        self.tally.next(core)
    }

    /// One place more, of a core below its total.
    #[inline(always)]
    pub fn advance(&mut self, core: u8)
        requires inside { core < length self.old.plan.totals }
        requires below { count_of self.old.counts core < slice_index self.old.plan.totals core }
        ensures { IsOneMore self.old core self.new }
    {
        let count = self.tally.next_count(core);
        self.go_on(core, count);
    }

    /// As many places of the core as bring it to this count, which is at most its total.
    #[inline(always)]
    pub fn go_on(&mut self, core: u8, count: u32)
        requires inside { core < length self.old.plan.totals }
        requires up { count_of self.old.counts core ≤ count }
        requires within { count ≤ slice_index self.old.plan.totals core }
        ensures { IsGoneOn self.old core count self.new }
    {
        self.tally.go_on(core, count);
        if self.low == Some(core) {
            if self.tally.count(core) < self.until[core as usize] {
                self.low = lowest_from(&self.tally, core, &mut self.until, &mut self.guesses);
                return;
            }
        }
        self.until = [u32::MAX; PLACES];
        self.low = lowest_from(&self.tally, 0, &mut self.until, &mut self.guesses);
    }

    /// The count to which the lowest core that is ready goes on. Up to there it stays the lowest, and no edge
    /// leads to its instructions after the next one.
    #[inline(always)]
    pub fn run(&self, core: u8) -> u32
        requires inside { core < length self.now.plan.totals }
        requires below { count_of self.now.counts core < slice_index self.now.plan.totals core }
        requires lowest { lowest_ready self.now.plan (count_of self.now.counts) ≡ Some core }
        ensures { IsRun self.now core result }
    {
        let next = self.tally.next_count(core);
        let free = self.tally.free_to(core);
        let total = self.tally.total(core);
        // There is a place for each core.
        let _ = self.tally.count(core);
        least_from(next, total, self.until[core as usize], free)
    }

    /// Whether each core is at its total.
    pub fn whole(&self) -> bool
        ensures { IsTrue result ↔ Full self.now.plan (count_of self.now.counts) }
    {
        self.tally.whole()
    }
}

/// The least of a total, a count that is waited for, and the count before one that isn't free, or the next
/// count, if that is greater.
#[inline(always)]
fn least_from(next: u32, total: u32, awaited: u32, free: u32) -> u32
    ensures least { next ≤ result }
    ensures most { next < result → (result ≤ total) × (result ≤ awaited) × (result < free) }
{
    let mut most = total;
    if awaited < most {
        most = awaited;
    }
    if free <= most {
        most = free.saturating_sub(1);
    }
    if most < next { next } else { most }
}

/// The lowest core from `from` on that is ready. `until` has for each core a count at most the one that it
/// has yet to come to for a core below.
#[inline(always)]
fn lowest_from(
    tally: &Tally,
    from: u8,
    until: &mut [u32; PLACES],
    guesses: &mut [u8; PLACES],
) -> Option<u8>
    requires from { from ≤ length tally.now.plan.totals }
    requires awaited { AreAwaited tally.now from until.old }
    ensures lowest { result
        ≡ lowest tally.now.plan (count_of tally.now.counts) from (length tally.now.plan.totals - from) }
    ensures awaited { (c : ℕ) → result ≡ Some c → AreAwaited tally.now c until.new }
{
    for core in from..tally.cores() {
        if tally.is_ready_or_waits(core, &mut guesses[core as usize], until) {
            return Some(core);
        }
    }
    None
}
