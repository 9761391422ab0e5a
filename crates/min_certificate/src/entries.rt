//! The clocks of a certificate, looked up at the edge ends of its recording, and tested there.
ghost use Rattle.std.specs.Prelude.{◌≡◌, ◌≢◌, ◌≤◌, ◌<◌, ◌-◌, ◌↔◌, IsTrue, slice_index};
ghost use Rattle.rtr_types.specs.Pairs.{IsPair};
ghost use Rattle.race_log.specs.Validity.{Valid};
ghost use Rattle.clock_core.specs.Order.{Among};
ghost use Rattle.clock_entries.specs.Ends.{ends_to, instr, last_entry};
ghost use Rattle.certificate_codec.specs.Ends.{reduced_edges, IsWithin};
ghost use Rattle.min_certificate.specs.Places.{IsSourceBelow, AreSourcesBelow, IsUnknownThere, IsUnknownByOthers};
ghost use Rattle.min_certificate.specs.Places.{IsGoodIn, IsNeededIn, IsSourceOn, AreAllBelow, LeadsTo, on_core};
ghost use Rattle.min_certificate.specs.Firsts.{FirstWithout, FirstBadOf, FirstBad};
ghost use Rattle.min_certificate.specs.Sound.{IsSound};

use crate::core_accesses::CoreAccesses;
use crate::places::{entry_at, is_below, is_below_but, place};
use certificate_codec::{CoreEntries, EdgeEnds};
use rtr_types::{CORES_MAX, Edge, Instr, Which};
use std::marker::Model;

/// A place for each core, as the length of an array.
const PLACES: usize = CORES_MAX as usize;

/// The instruction of a core with a count, if there is one.
fn on_core(core: u8, count: Option<u32>) -> Option<Instr>
    ensures { result ≡ on_core core count }
{
    match count {
        Some(count) => Some(Instr { core, count }),
        None => None,
    }
}

/// The edge ends of a recording, with clocks for them. Contracts see it as the certificate.
#[derive(Drop)]
pub struct Entries<'a> {
    ends: EdgeEnds<'a>,
    clocks: &'a [CoreEntries],
}

impl<'a> Model for Entries<'a> {
    ghost use Rattle.certificate_codec.specs.declared.certificate.Certificate.{Certificate};

    ghost Value = { Certificate };

    ghost view = { λ a. record { recording = a.ends; clocks = a.clocks.now } };
}

impl<'a> Entries<'a> {
    /// Clocks for these edge ends.
    pub fn new(ends: EdgeEnds<'a>, clocks: &'a [CoreEntries]) -> Entries<'a>
        ensures { result ≡ record { recording = ends.entry; clocks = clocks.now } }
    {
        Entries { ends, clocks }
    }

    /// How many cores there are.
    fn cores(&self) -> u8
        ensures cores { result ≡ self.now.recording.params.cores }
        ensures valid { Valid self.now.recording }
    {
        self.ends.recording().params.cores
    }

    /// The edges of the reduced log, by pair and then by target.
    pub fn edges(&self) -> &[Edge]
        ensures edges { result.now ≡ reduced_edges self.now.recording }
        ensures valid { Valid self.now.recording }
    {
        // What always holds of the edge ends: their recording is valid.
        let _ = self.ends.recording();
        self.ends.edges()
    }

    /// The edge ends of a core, by rising count.
    fn ends_of(&self, core: u8) -> &[u32]
        requires { core < self.now.recording.params.cores }
        ensures ends { result.now ≡ ends_to (reduced_edges self.now.recording) core
            (slice_index self.now.recording.totals core) }
        ensures valid { Valid self.now.recording }
    {
        // What always holds of the edge ends: their recording is valid.
        let _ = self.ends.recording();
        self.ends.of_core(core)
    }

    /// The instruction's logged source on another core, if there is one.
    fn source(&self, of: u8, at: Instr) -> Option<Instr>
        requires { IsPair self.now.recording.params.cores of at.core }
        ensures { IsSourceOn self.now of at result }
    {
        let count = self.ends.recording().source(Which::Reduced, of, at);
        on_core(of, count)
    }

    /// The same, looked for from a place in the two cores' list of edges on; the place where it was found
    /// is left.
    fn source_near(&self, of: u8, at: Instr, near: &mut usize) -> Option<Instr>
        requires { IsPair self.now.recording.params.cores of at.core }
        ensures { IsSourceOn self.now of at result }
    {
        let count = self.ends.recording().reduced_source_near(of, at, near);
        on_core(of, count)
    }

    /// The last entry of the instruction's core at or before it; empty where there is none.
    fn entry(&self, at: Instr) -> &'a [u32]
        requires { IsWithin self.now.recording at }
        ensures { result.now ≡ last_entry (reduced_edges self.now.recording) self.now.clocks at }
    {
        entry_at(self.clocks, at.core, self.ends.number(at))
    }

    /// The same entry, whose number is looked for from the one that was found last.
    #[inline(always)]
    fn entry_near(&self, at: Instr, number: &mut usize) -> &'a [u32]
        requires { IsWithin self.now.recording at }
        ensures { result.now ≡ last_entry (reduced_edges self.now.recording) self.now.clocks at }
    {
        *number = self.ends.number_near(at, *number);
        entry_at(self.clocks, at.core, *number)
    }
}

// Which entries are good.
impl<'a> Entries<'a> {
    /// Whether the entry of the instruction's logged source on another core, if there is one, is nowhere
    /// above this entry.
    fn is_source_below(&self, at: Instr, of: u8, here: &[u32]) -> bool
        requires { IsPair self.now.recording.params.cores of at.core }
        ensures { IsTrue result ↔ IsSourceBelow self.now at of here.now }
    {
        match self.source(of, at) {
            Some(source) => is_below(self.entry(source), here),
            None => true,
        }
    }

    /// Whether the entry of each edge's source is nowhere above that of its target. The edges of a pair
    /// rise, so that an entry is found near the last one.
    fn are_all_below(&self) -> bool
        ensures { IsTrue result → AreAllBelow self.now }
    {
        let mut from = 0;
        let mut to = 0;
        for &edge in self.edges() {
            let there = self.entry_near(edge.from, &mut from);
            let here = self.entry_near(edge.to, &mut to);
            if !is_below(there, here) {
                return false;
            }
        }
        true
    }

    /// The same for all its logged sources, if it isn't known already.
    fn are_sources_below(&self, at: Instr, here: &[u32], known: bool) -> bool
        requires within { IsWithin self.now.recording at }
        requires known { IsTrue known → AreSourcesBelow self.now at here.now }
        ensures { IsTrue result ↔ AreSourcesBelow self.now at here.now }
    {
        if known {
            return true;
        }
        for of in 0..self.cores() {
            if of != at.core && !self.is_source_below(at, of, here) {
                return false;
            }
        }
        true
    }

    /// Whether the entry of an edge end is good: it has its own count at its own place, at each other
    /// place at least what its core's previous entry has, and at each place at least what each logged
    /// source's has, which may be known already.
    fn is_good_at(&self, at: Instr, here: &[u32], before: &[u32], known: bool) -> bool
        requires within { IsWithin self.now.recording at }
        requires some { 1 ≤ at.count }
        requires here { here.now ≡ last_entry (reduced_edges self.now.recording) self.now.clocks at }
        requires before { before.now
            ≡ last_entry (reduced_edges self.now.recording) self.now.clocks (instr at.core (at.count - 1)) }
        requires known { IsTrue known → AreSourcesBelow self.now at here.now }
        ensures { IsTrue result ↔ IsGoodIn self.now at }
    {
        place(here, at.core as usize) == at.count
            && is_below_but(at.core, before, here)
            && self.are_sources_below(at, here, known)
    }

    /// The number, from 1, of the core's first entry that isn't good. It may be known already that no entry
    /// of a source is above that of a target.
    fn first_bad_of(&self, core: u8, known: bool) -> Option<u32>
        requires core { core < self.now.recording.params.cores }
        requires known { IsTrue known → AreAllBelow self.now }
        ensures { FirstBadOf self.now core result }
    {
        let ends = self.ends_of(core);
        for before in 0..ends.len() {
            let at = Instr {
                core,
                count: ends[before],
            };
            let here = entry_at(self.clocks, core, before + 1);
            let earlier = entry_at(self.clocks, core, before);
            if !self.is_good_at(at, here, earlier, known) {
                return Some(before as u32 + 1);
            }
        }
        None
    }

    /// The first entry that isn't good: its core, and its number in the core, from 1.
    pub fn first_bad(&self) -> Option<(u8, u32)>
        ensures { FirstBad self.now result }
    {
        let known = self.are_all_below();
        for core in 0..self.cores() {
            if let Some(number) = self.first_bad_of(core, known) {
                return Some((core, number));
            }
        }
        None
    }
}

// Which edges are needed.
impl<'a> Entries<'a> {
    /// Whether the entry of the logged source of the edge's target on another core than that of the edge's
    /// own, if there is one, doesn't know the edge's source. It is looked for from where the last edge to the
    /// target's core from that core was.
    fn is_unknown_there(&self, edge: Edge, of: u8, near: &mut usize) -> bool
        requires pair { IsPair self.now.recording.params.cores of edge.to.core }
        requires other { of ≢ edge.from.core }
        ensures { IsTrue result ↔ IsUnknownThere self.now edge.from edge.to of }
    {
        match self.source_near(of, edge.to, near) {
            Some(source) => { place(self.entry(source), edge.from.core as usize) < edge.from.count }
            None => true,
        }
    }

    /// The same for all other logged sources. On the core of the edge's source there is no other.
    fn is_unknown_by_others(&self, edge: Edge, near: &mut [usize; PLACES]) -> bool
        requires within { IsWithin self.now.recording edge.to }
        requires edge { Among (reduced_edges self.now.recording) edge.from edge.to }
        ensures { IsTrue result ↔ IsUnknownByOthers self.now edge.from edge.to }
    {
        for of in 0..self.cores() {
            let near = &mut near[of as usize];
            if of != edge.to.core
                && of != edge.from.core
                && !self.is_unknown_there(edge, of, near)
            {
                return false;
            }
        }
        true
    }

    /// Whether an edge is needed: neither the entry before its target on the target's core nor that of
    /// another logged source of the target knows its source. The number of that entry and those sources are
    /// looked for from the ones that were found last.
    fn is_needed(&self, edge: Edge, number: &mut usize, near: &mut [usize; PLACES]) -> bool
        requires { LeadsTo self.now.recording edge.from edge.to }
        ensures { IsTrue result ↔ IsNeededIn self.now edge.from edge.to }
    {
        let before = Instr {
            core: edge.to.core,
            count: edge.to.count - 1,
        };
        place(self.entry_near(before, number), edge.from.core as usize) < edge.from.count
            && self.is_unknown_by_others(edge, near)
    }

    /// The first reduced edge that isn't needed.
    pub fn first_not_needed(&self) -> Option<Edge>
        ensures { FirstWithout (IsNeededIn self.now) (reduced_edges self.now.recording) result }
    {
        let mut number = 0;
        let mut near = [0; PLACES];
        for &edge in self.edges() {
            if !self.is_needed(edge, &mut number, &mut near) {
                return Some(edge);
            }
        }
        None
    }

    /// The first reduced edge that is no conflict of the accesses, or isn't needed.
    pub fn first_amiss(&self, accesses: &CoreAccesses) -> Option<Edge>
        ensures { FirstWithout (IsSound self.now accesses.now) (reduced_edges self.now.recording) result }
    {
        let mut number = 0;
        let mut near = [0; PLACES];
        for &edge in self.edges() {
            if !accesses.is_conflict(edge) || !self.is_needed(edge, &mut number, &mut near) {
                return Some(edge);
            }
        }
        None
    }
}
