//! The logged sources of instructions that are asked for one after the other.
ghost use Rattle.std.specs.Prelude.{◌≡◌, ◌≢◌, ◌<◌, ◌≤◌, ◌+◌, ◌-◌, ◌^◌, ℕ, IfOk, IfSome, IsTrue, false};
ghost use Rattle.std.specs.Prelude.{length};
ghost use Rattle.std.specs.Prelude.{None as NoneThere};
ghost use Rattle.rtr_types.specs.declared.TheConstants.{CORES_MAX};
ghost use Rattle.rtr_types.specs.declared.pairs.Which.{Which};
ghost use Rattle.clock_core.specs.Counts.{no_counts};
ghost use Rattle.race_log.specs.declared.recording.Recording.{Recording};
ghost use Rattle.replay_core.specs.Plans.{plan_of};
ghost use Rattle.replay_core.specs.Play.{instr};
ghost use Rattle.rtr_types.specs.Pairs.{IsPair};
ghost use Rattle.race_log.specs.Sources.{log_edges};
ghost use Rattle.race_log.specs.Validity.{Valid};
ghost use Rattle.replay_core.specs.Sources.{AreSources, sources_in};
ghost use Rattle.replay_core.specs.Coming.{IsComing, IsNextInto, IsPut, IsSource, IsSourceIn, IsStillNext, IsTaken};
ghost use Rattle.replay_core.specs.Coming.{PassesCore, edge_of};

use crate::next_edge::{Log, next_edge};
use clock_core::Clock;
use race_log::Recording;
use rtr_types::{CORES_MAX, Instr, Which};
use std::alloc::{AllocError, Global};
use std::marker::Model;

/// A place for each core, as the length of an array.
pub(crate) const PLACES: usize = CORES_MAX as usize;

/// The next edges into one core: from each other core the first one to the instruction with the count
/// `from` or to a later one. None of these leads to a count below `due`. `places` has a guess of where the
/// edge after each stands in its pair's list. Where the core's instructions are asked for in their order, an
/// edge is looked up once, and an instruction to which none leads takes no look-up.
#[derive(Clone, Copy)]
pub struct Coming {
    from: u32,
    due: u32,
    edges: [Option<(u32, u32)>; PLACES],
    places: [usize; PLACES],
}

impl Coming {
    /// Before any edge was looked up.
    pub fn new() -> Coming
        ensures { (which : Which) (r : Recording) (core : ℕ) → Valid r →
            IsComing (log_edges which r) core r.params.cores result }
    {
        Coming::none(u32::MAX)
    }

    /// Finds the logged sources of an instruction of the core: none where no edge leads to it.
    #[inline(always)]
    pub fn find(
        &mut self,
        recording: &Recording,
        which: Which,
        at: Instr,
        sources: &mut Option<Clock>,
    )
        requires valid { Valid recording.now }
        requires core { at.core < recording.now.params.cores }
        requires count { at.count < 2 ^ 32 - 1 }
        requires coming { IsComing (log_edges which recording.now) at.core recording.now.params.cores self.old }
        ensures sources { AreSources (log_edges which recording.now) at (sources_in sources.new) }
        ensures coming { IsComing (log_edges which recording.now) at.core recording.now.params.cores self.new }
    {
        if self.is_early(at.count) {
            clear(sources);
            return;
        }
        *sources = Some(self.pass(Log { recording, which }, at));
    }

    /// No edge to this count or a later one.
    fn none(from: u32) -> Coming
        ensures from { result.from ≡ from }
        ensures due { result.due ≡ 2 ^ 32 - 1 }
        ensures edges { (i : ℕ) → edge_of result i ≡ NoneThere }
    {
        Coming {
            from,
            due: u32::MAX,
            edges: [None; PLACES],
            places: [0; PLACES],
        }
    }

    /// Whether the count is known to be below each edge's target.
    fn is_early(&self, count: u32) -> bool
        ensures { IsTrue result → (self.now.from ≤ count) × (count < self.now.due) }
    {
        self.from <= count && count < self.due
    }

    /// The first count from this one on to which an edge may lead. Instructions with counts before it have no sources.
    #[inline(always)]
    pub fn free_to(&self, count: u32) -> u32
        ensures { (which : Which) (r : Recording) (core n : ℕ) → Valid r →
            IsComing (log_edges which r) core r.params.cores self.now → count ≤ n → n < result →
            AreSources (log_edges which r) (instr core n) no_counts }
    {
        self.early_to(count)
    }

    /// So by what is known of the edges.
    #[inline(always)]
    fn early_to(&self, count: u32) -> u32
        ensures { (n : ℕ) → count ≤ n → n < result → (self.now.from ≤ n) × (n < self.now.due) }
    {
        if self.from <= count { self.due } else { count }
    }

    /// The first edge from a core to this count or a later one, where it is known: there may be none.
    fn known(&self, of: u8, count: u32) -> Option<Option<(u32, u32)>>
        requires { of < CORES_MAX }
        ensures { IfSome result (λ edge. IsStillNext self.now of count edge) }
    {
        if count < self.from {
            return None;
        }
        match self.edges[of as usize] {
            Some((source, target)) => {
                if target < count {
                    return None;
                }
                Some(Some((source, target)))
            }
            None => Some(None),
        }
    }

    /// Puts the next edge from a core, and the guess.
    fn put(&mut self, of: u8, edge: Option<(u32, u32)>, place: usize)
        requires { of < CORES_MAX }
        ensures from { self.new.from ≡ self.old.from }
        ensures at { edge_of self.new of ≡ edge }
        ensures others { (i : ℕ) → i ≢ of → edge_of self.new i ≡ edge_of self.old i }
        ensures before { self.new.due ≤ self.old.due }
        ensures due { IfSome edge (λ e. self.new.due ≤ e.1) }
    {
        if let Some((_, target)) = edge {
            self.due = self.due.min(target);
        }
        self.edges[of as usize] = edge;
        self.places[of as usize] = place;
    }

    /// The sources of the instruction, each core's in turn. The edges go on to those to later ones.
    #[inline(never)]
    fn pass(&mut self, log: Log, at: Instr) -> Clock
        requires valid { Valid log.recording.now }
        requires core { at.core < log.recording.now.params.cores }
        requires count { at.count < 2 ^ 32 - 1 }
        requires coming { IsComing (log_edges log.which log.recording.now) at.core
            log.recording.now.params.cores self.old }
        ensures sources { AreSources (log_edges log.entry.which log.entry.recording.now) at result }
        ensures coming { IsComing (log_edges log.entry.which log.entry.recording.now) at.core
            log.entry.recording.now.params.cores self.new }
    {
        let mut found = Clock::zero();
        self.due = u32::MAX;
        for of in 0..log.recording.params.cores {
            if of != at.core {
                self.pass_core(log, of, at, &mut found);
            }
        }
        self.from = at.count + 1;
        found
    }

    /// Finds the instruction's source on a core, and goes on to the core's next edge to a later instruction. Mostly
    /// the edge that is known leads to one: then it stays.
    #[inline(always)]
    fn pass_core(&mut self, log: Log, of: u8, at: Instr, found: &mut Clock)
        requires valid { Valid log.recording.now }
        requires pair { IsPair log.recording.now.params.cores of at.core }
        requires count { at.count < 2 ^ 32 - 1 }
        requires coming { IsNextInto (log_edges log.which log.recording.now) of (instr at.core self.old.from)
            (edge_of self.old of) }
        ensures { PassesCore (log_edges log.entry.which log.entry.recording.now) at of found.old self.old found.new
            self.new }
    {
        if self.stays(of, at.count) {
            return;
        }
        let mut place = self.places[of as usize];
        let Step { source, next } = self.step(log, of, at, &mut place);
        self.put(of, next, place);
        take(found, of, source);
    }

    /// Whether the next edge from a core is known to lead to a later instruction than the one with this count, or
    /// there is known to be none. It stays, and is due.
    #[inline(always)]
    fn stays(&mut self, of: u8, count: u32) -> bool
        requires { of < CORES_MAX }
        ensures other { result ≡ false → self.new ≡ self.old }
        ensures known { IsTrue result → self.old.from ≤ count }
        ensures later { IsTrue result → IfSome (edge_of self.old of) (λ e. count < e.1) }
        ensures put { IsTrue result → IsPut self.old of (edge_of self.old of) self.new }
    {
        if count < self.from {
            return false;
        }
        match self.edges[of as usize] {
            Some((_, target)) => {
                if target <= count {
                    return false;
                }
                self.due = self.due.min(target);
                true
            }
            None => true,
        }
    }

    /// The instruction's source on a core, and the core's next edge to a later instruction, with the guess.
    fn step(&self, log: Log, of: u8, at: Instr, place: &mut usize) -> Step
        requires valid { Valid log.recording.now }
        requires pair { IsPair log.recording.now.params.cores of at.core }
        requires count { at.count < 2 ^ 32 - 1 }
        requires coming { IsNextInto (log_edges log.which log.recording.now) of (instr at.core self.now.from)
            (edge_of self.now of) }
        ensures source { IsSource (log_edges log.entry.which log.entry.recording.now) of at result.source }
        ensures next { IsNextInto (log_edges log.entry.which log.entry.recording.now) of
            (instr at.core (at.count + 1)) result.next }
    {
        let next = self.next(log, of, at, place);
        match source_in(next, at.count) {
            Some(count) => {
                let later = Instr {
                    core: at.core,
                    count: at.count + 1,
                };
                let next = next_edge(log, of, later, place);
                Step {
                    source: Some(count),
                    next,
                }
            }
            None => Step { source: None, next },
        }
    }

    /// The first edge from a core to the instruction or a later one: the one that is known, if it is still
    /// to come.
    fn next(&self, log: Log, of: u8, at: Instr, place: &mut usize) -> Option<(u32, u32)>
        requires valid { Valid log.recording.now }
        requires pair { IsPair log.recording.now.params.cores of at.core }
        requires coming { IsNextInto (log_edges log.which log.recording.now) of (instr at.core self.now.from)
            (edge_of self.now of) }
        ensures { IsNextInto (log_edges log.entry.which log.entry.recording.now) of at result }
    {
        match self.known(of, at.count) {
            Some(edge) => edge,
            None => next_edge(log, of, at, place),
        }
    }
}

/// The source of an instruction on a core, and the core's next edge to a later instruction.
#[derive(Clone, Copy)]
struct Step {
    source: Option<u32>,
    next: Option<(u32, u32)>,
}

/// The logged sources of a recording's instructions, with the next edges into each core.
#[derive(Drop)]
pub struct Sources<'a> {
    recording: &'a Recording,
    which: Which,
    coming: Vec<Coming>,
}

impl<'a> Model for Sources<'a> {
    ghost use Rattle.replay_core.specs.Plans.{Plan, plan_of};
    ghost use Rattle.replay_core.specs.Coming.{AreComing};

    ghost Value = { Plan };

    ghost view = { λ a. plan_of a.which a.recording.now };

    ghost invariant = { λ a. AreComing a.which a.recording.now a.coming.items };
}

impl<'a> Sources<'a> {
    /// Nothing is looked up yet.
    pub fn new(alloc: Global, recording: &'a Recording, which: Which) -> Result<Self, AllocError>
        requires { Valid recording.now }
        ensures { IfOk result (λ sources. sources ≡ plan_of which recording.now) }
    {
        let mut coming = Vec::new(alloc);
        for core in 0..recording.params.cores {
            coming.push(Coming::none(u32::MAX))?;
        }
        Ok(Sources {
            recording,
            which,
            coming,
        })
    }

    /// The first count from that of the instruction on to which an edge may lead on its core.
    #[inline(always)]
    pub fn free_to(&self, at: Instr) -> u32
        requires { at.core < length self.now.totals }
        ensures { (n : ℕ) → at.count ≤ n → n < result →
            AreSources self.now.edges (instr at.core n) no_counts }
    {
        self.coming[at.core as usize].free_to(at.count)
    }

    /// Finds the sources of the instruction: none where no edge leads to it.
    #[inline(always)]
    pub fn find(&mut self, at: Instr, sources: &mut Option<Clock>)
        requires core { at.core < length self.old.totals }
        requires count { at.count < 2 ^ 32 - 1 }
        ensures plan { self.new ≡ self.old }
        ensures sources { AreSources self.old.edges at (sources_in sources.new) }
    {
        let coming = &mut self.coming[at.core as usize];
        coming.find(self.recording, self.which, at, sources);
    }
}

/// Leaves no sources. Where there are none, nothing is written.
#[inline(always)]
fn clear(sources: &mut Option<Clock>)
    ensures { sources.new ≡ NoneThere }
{
    if sources.is_some() {
        *sources = None;
    }
}

/// Puts in a source on a core, if there is one.
#[tactic(auto, using(crate::proofs::AwaitedEdges::taken_some, crate::proofs::AwaitedEdges::taken_none))]
#[inline(always)]
fn take(found: &mut Clock, of: u8, source: Option<u32>)
    requires { of < CORES_MAX }
    ensures { IsTaken source of found.old found.new }
{
    match source {
        Some(count) => found.set(of, count),
        None => {}
    }
}

/// The source of the edge, where it leads to this count.
fn source_in(edge: Option<(u32, u32)>, count: u32) -> Option<u32>
    ensures { IsSourceIn edge count result }
{
    match edge {
        Some((source, target)) => {
            if target == count {
                return Some(source);
            }
            None
        }
        None => None,
    }
}
