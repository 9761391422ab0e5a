//! How far cores have come along an order, and what their next instructions wait for.
ghost use Rattle.std.specs.Prelude.{◌≡◌, ◌<◌, ◌≤◌, ◌+◌, ◌↔◌, ℕ, length, slice_index, replicate, IfOk};
ghost use Rattle.std.specs.Prelude.{IsTrue, false};
ghost use Rattle.rtr_types.specs.declared.TheConstants.{CORES_MAX};
ghost use Rattle.rtr_types.specs.declared.params.TheConstants.{LIMIT_MAX};
ghost use Rattle.clock_core.specs.Counts.{no_counts};
ghost use Rattle.race_log.specs.Validity.{Valid};
ghost use Rattle.replay_core.specs.Plans.{plan_of};
ghost use Rattle.replay_core.specs.Play.{instr};
ghost use Rattle.replay_core.specs.Orders.{Full, is_ready, is_sourced};
ghost use Rattle.replay_core.specs.Sources.{AreSources, sources_in};
ghost use Rattle.replay_core.specs.Tallies.{AreWanted, IsGoneOn, IsNextInstr, IsOneMore, IsUnmet, Waits, count_of};
ghost use Rattle.replay_core.specs.Tallies.{next_of};

use crate::coming::{PLACES, Sources};
use crate::sourced::Sourced;
use clock_core::Clock;
use race_log::Recording;
use rtr_types::{Instr, Which};
use std::alloc::{AllocError, Global};
use std::marker::Model;

/// How far each core has come along an order that obeys the log, and the logged sources of its next
/// instruction, which are looked up once.
pub struct Tally<'a> {
    recording: &'a Recording,
    which: Which,
    counts: Vec<u32>,
    wanted: Vec<Option<Clock>>,
    sources: Sources<'a>,
}

impl Drop for Tally<'_> {
    fn drop(self) {
        let Tally {
            recording: _recording,
            which: _which,
            counts: _counts,
            wanted: _wanted,
            sources: _sources,
        } = self;
    }
}

impl<'a> Model for Tally<'a> {
    ghost use Rattle.replay_core.specs.Plans.{plan_of};
    ghost use Rattle.replay_core.specs.Tallies.{Tallied, IsTally};

    ghost Value = { Tallied };

    ghost view = { λ a. record { plan = plan_of a.which a.recording.now; counts = a.counts.items } };

    ghost invariant = { λ a. IsTally a.which a.recording.now a.sources a.counts.items a.wanted.items };
}

impl<'a> Tally<'a> {
    /// Before the first place.
    pub fn new(alloc: Global, recording: &'a Recording, which: Which) -> Result<Self, AllocError>
        requires { Valid recording.now }
        ensures plan { IfOk result (λ tally. tally.plan ≡ plan_of which recording.now) }
        ensures counts { IfOk result (λ tally. tally.counts ≡ replicate (length recording.now.totals) 0) }
    {
        let mut sources = Sources::new(alloc, recording, which)?;
        let counts = no_counts(alloc, recording.params.cores)?;
        let wanted = first_wanted(alloc, &mut sources, recording.params.cores)?;
        Ok(Tally {
            recording,
            which,
            counts,
            wanted,
            sources,
        })
    }

    /// How many cores there are.
    pub fn cores(&self) -> u8
        ensures all { result ≡ length self.now.plan.totals }
        ensures few { result ≤ CORES_MAX }
    {
        self.recording.params.cores
    }

    /// The next instruction of a core below its total, with its logged sources.
    pub fn next(&self, core: u8) -> Sourced<'_>
        requires inside { core < length self.now.plan.totals }
        requires below { count_of self.now.counts core < slice_index self.now.plan.totals core }
        ensures { IsNextInstr self.now core result.at (sources_in result.sources.now) }
    {
        // What always holds of a tally: it has a place for each core of its recording.
        let _ = &self.recording;
        let count = self.counts[core as usize] + 1;
        Sourced {
            at: Instr { core, count },
            sources: &self.wanted[core as usize],
        }
    }

    /// How many instructions of the core were counted.
    pub fn count(&self, core: u8) -> u32
        requires { core < length self.now.plan.totals }
        ensures count { result ≡ count_of self.now.counts core }
        ensures few { core < CORES_MAX }
    {
        // What always holds of a tally: it has a place for each core of its recording.
        let _ = &self.recording;
        self.counts[core as usize]
    }

    /// The count of the next instruction of a core below its total.
    pub fn next_count(&self, core: u8) -> u32
        requires inside { core < length self.now.plan.totals }
        requires below { count_of self.now.counts core < slice_index self.now.plan.totals core }
        ensures count { result ≡ count_of self.now.counts core + 1 }
        ensures most { result ≤ LIMIT_MAX }
        ensures place { core < length self.now.counts }
    {
        // What always holds of a tally: it has a place for each core of its recording.
        let _ = &self.recording;
        self.counts[core as usize] + 1
    }

    /// One place more, of a core below its total.
    #[inline(always)]
    pub fn advance(&mut self, core: u8)
        requires inside { core < length self.old.plan.totals }
        requires below { count_of self.old.counts core < slice_index self.old.plan.totals core }
        ensures { IsOneMore self.old core self.new }
    {
        let count = self.next_count(core);
        self.go_on(core, count);
    }

    /// As many places of the core as bring it to this count, which is at most its total.
    #[inline(always)]
    pub fn go_on(&mut self, core: u8, count: u32)
        requires inside { core < length self.old.plan.totals }
        requires within { count ≤ slice_index self.old.plan.totals core }
        ensures { IsGoneOn self.old core count self.new }
    {
        // What always holds of a tally: it has a place for each core of its recording.
        let _ = &self.recording;
        let next = Instr {
            core,
            count: count + 1,
        };
        self.counts[core as usize] = count;
        self.sources.find(next, &mut self.wanted[core as usize]);
    }

    /// The core's total.
    pub fn total(&self, core: u8) -> u32
        requires { core < length self.now.plan.totals }
        ensures { result ≡ slice_index self.now.plan.totals core }
    {
        self.recording.totals.as_slice()[core as usize]
    }

    /// The first count, after that of the core's next instruction, to which an edge may lead.
    #[inline(always)]
    pub fn free_to(&self, core: u8) -> u32
        requires inside { core < length self.now.plan.totals }
        requires below { count_of self.now.counts core < slice_index self.now.plan.totals core }
        ensures { (n : ℕ) → count_of self.now.counts core + 1 < n → n < result →
            AreSources self.now.plan.edges (instr core n) no_counts }
    {
        let count = self.next_count(core) + 1;
        self.sources.free_to(Instr { core, count })
    }

    /// Whether each core is at its total.
    pub fn whole(&self) -> bool
        ensures { IsTrue result ↔ Full self.now.plan (count_of self.now.counts) }
    {
        // What always holds of a tally: it has a place for each core of its recording.
        let _ = &self.recording;
        for core in 0..self.recording.params.cores {
            if self.counts[core as usize] != self.recording.totals.as_slice()[core as usize] {
                return false;
            }
        }
        true
    }

    /// Whether the core is below its total and each source of its next instruction was counted.
    #[inline(always)]
    pub fn is_ready(&self, core: u8) -> bool
        requires { core < length self.now.plan.totals }
        ensures { result ≡ is_ready self.now.plan (count_of self.now.counts) core }
    {
        // What always holds of a tally: it has a place for each core of its recording.
        let _ = &self.recording;
        let count = self.counts[core as usize];
        count < self.recording.totals.as_slice()[core as usize] && self.is_sourced(core)
    }

    /// Whether each source of the core's next instruction was counted.
    fn is_sourced(&self, core: u8) -> bool
        requires { core < length self.now.plan.totals }
        ensures { result
            ≡ is_sourced self.now.plan.edges (count_of self.now.counts) core (count_of self.now.counts core + 1) }
    {
        match self.unmet(core, 0) {
            None => true,
            Some(_) => false,
        }
    }

    /// Whether the core is ready. If it is below its total and isn't, the count of a source's core is lowered to the
    /// source that it waits for, and the guess becomes that core.
    #[inline(always)]
    pub(crate) fn is_ready_or_waits(
        &self,
        core: u8,
        guess: &mut u8,
        until: &mut [u32; PLACES],
    ) -> bool
        requires { core < length self.now.plan.totals }
        ensures ready { result ≡ is_ready self.now.plan (count_of self.now.counts) core }
        ensures below { (i : ℕ) → slice_index until.new i ≤ slice_index until.old i }
        ensures waits { result ≡ false → Waits self.now core until.new }
    {
        // What always holds of a tally: it has a place for each core of its recording.
        let _ = &self.recording;
        if self.counts[core as usize] >= self.recording.totals.as_slice()[core as usize] {
            return false;
        }
        match self.unmet(core, *guess) {
            None => true,
            Some((of, count)) => {
                *guess = of;
                until[of as usize] = until[of as usize].min(count);
                false
            }
        }
    }

    /// A source of the core's next instruction that wasn't counted, if there is one. It is looked for at a guess
    /// first.
    #[inline(always)]
    fn unmet(&self, core: u8, guess: u8) -> Option<(u8, u32)>
        requires { core < length self.now.plan.totals }
        ensures { IsUnmet self.now core result }
    {
        // What always holds of a tally: it has a place for each core of its recording.
        let _ = &self.recording;
        match &self.wanted[core as usize] {
            None => None,
            Some(wanted) => self.unmet_among(core, wanted, guess),
        }
    }

    /// One of these sources of the core's next instruction that wasn't counted, if there is one. It is looked for at a
    /// guess first.
    #[inline(always)]
    fn unmet_among(&self, core: u8, wanted: &Clock, guess: u8) -> Option<(u8, u32)>
        requires core { core < length self.now.plan.totals }
        requires sources { AreSources self.now.plan.edges (next_of self.now.counts core) wanted.now }
        ensures { IsUnmet self.now core result }
    {
        let cores = self.recording.params.cores;
        if guess < cores && self.is_above(wanted, guess) {
            return Some((guess, wanted.get(guess)));
        }
        for of in 0..cores {
            if self.is_above(wanted, of) {
                return Some((of, wanted.get(of)));
            }
        }
        None
    }

    /// Whether a core's count among these is above its own.
    #[inline(always)]
    fn is_above(&self, wanted: &Clock, of: u8) -> bool
        requires { of < length self.now.plan.totals }
        ensures { IsTrue result ↔ (count_of self.now.counts of < slice_index wanted.now of) }
    {
        // What always holds of a tally: it has a place for each core of its recording.
        let _ = &self.recording;
        wanted.get(of) > self.counts[of as usize]
    }
}

/// No count of any of so many cores.
fn no_counts(alloc: Global, cores: u8) -> Result<Vec<u32>, AllocError>
    ensures { IfOk result (λ list. list.items ≡ replicate cores 0) }
{
    let mut list = Vec::new(alloc);
    for core in 0..cores {
        list.push(0)?;
    }
    Ok(list)
}

/// The sources of the first instruction of each of so many cores.
fn first_wanted(
    alloc: Global,
    sources: &mut Sources,
    cores: u8,
) -> Result<Vec<Option<Clock>>, AllocError>
    requires { cores ≤ length sources.old.totals }
    ensures plan { sources.new ≡ sources.old }
    ensures wanted { IfOk result (λ list. AreWanted sources.old.edges cores list.items) }
{
    let mut list = Vec::new(alloc);
    for core in 0..cores {
        let mut wanted = None;
        sources.find(Instr { core, count: 1 }, &mut wanted);
        list.push(wanted)?;
    }
    Ok(list)
}
