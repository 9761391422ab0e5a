//! The instructions at which reduced edges begin or end.
ghost use Rattle.std.specs.Prelude.{◌≡◌, ◌+◌, ◌<◌, ◌||◌, ℕ, IfOk, IfSome, IsTrue, false, length, map};
ghost use Rattle.std.specs.Prelude.{slice_index, slice_index_or};
ghost use Rattle.race_log.specs.Sources.{edge_between};
ghost use Rattle.race_log.specs.Validity.{Valid};
ghost use Rattle.clock_entries.specs.Ends.{instr, is_same, is_end, ends_to};
ghost use Rattle.certificate_codec.specs.Ends.{reduced_edges, ends_in, IsWithin, IsNumber};

use crate::edge_lists::edges_of;
use race_log::Recording;
use rtr_types::{Edge, Instr, Items, pair_count, pair_of};
use std::alloc::{AllocError, Global};
use std::marker::Model;

/// How many numbers are tried from a guess on.
const TRIED: usize = 32;

/// A recording with its reduced edges and their ends. Contracts see it as the recording.
#[derive(Drop)]
pub struct EdgeEnds<'a> {
    recording: &'a Recording,
    edges: Items<Edge>,
    ends: Items<Items<u32>>,
}

impl<'a> Model for EdgeEnds<'a> {
    ghost use Rattle.race_log.specs.declared.recording.Recording.{Recording};
    ghost use Rattle.certificate_codec.specs.Ends.{HasEnds};

    ghost Value = { Recording };

    ghost view = { λ a. a.recording.now };

    ghost invariant = { λ a. HasEnds a.recording.now a.edges a.ends };
}

impl<'a> EdgeEnds<'a> {
    /// The recording with its edge ends. They are found in one pass over a core's edges and one over its
    /// counts.
    pub fn new(alloc: Global, recording: &'a Recording) -> Result<EdgeEnds<'a>, AllocError>
        requires { Valid recording.now }
        ensures { IfOk result (λ ends. ends ≡ recording.now) }
    {
        let edges = edges_of(alloc, recording)?;
        let ends = ends_of(alloc, recording)?;
        Ok(EdgeEnds {
            recording,
            edges,
            ends,
        })
    }

    /// The recording.
    pub fn recording(&self) -> &'a Recording
        ensures recording { result.now ≡ self.now }
        ensures valid { Valid self.now }
    {
        self.recording
    }

    /// The edges of the reduced log, by pair and then by target.
    pub fn edges(&self) -> &[Edge]
        ensures { result.now ≡ reduced_edges self.now }
    {
        self.edges.as_slice()
    }

    /// The edge ends of a core, by rising count.
    pub fn of_core(&self, core: u8) -> &[u32]
        requires { core < self.now.params.cores }
        ensures { result.now ≡ ends_to (reduced_edges self.now) core (slice_index self.now.totals core) }
    {
        self.ends.as_slice()[core as usize].as_slice()
    }

    /// How many edge ends the instruction's core has up to it.
    pub fn number(&self, at: Instr) -> usize
        requires { IsWithin self.now at }
        ensures { result ≡ length (ends_to (reduced_edges self.now) at.core at.count) }
    {
        self.of_core(at.core)
            .partition_point(|&end| end <= at.count)
    }

    /// The same, found the sooner the less it is above the guess.
    pub fn number_near(&self, at: Instr, guess: usize) -> usize
        requires { IsWithin self.now at }
        ensures { result ≡ length (ends_to (reduced_edges self.now) at.core at.count) }
    {
        match tried(self.of_core(at.core), at.count, guess) {
            Some(number) => number,
            None => self.number(at),
        }
    }
}

/// Whether so many of the rising ends, and not all, are at most this count.
fn is_number(ends: &[u32], count: u32, number: usize) -> bool
    ensures { IsTrue result → IsNumber ends.now count number }
{
    number < ends.len() && ends[number] > count && (number == 0 || ends[number - 1] <= count)
}

/// How many of the rising ends are at most this count, where it is the guess or little more.
fn tried(ends: &[u32], count: u32, guess: usize) -> Option<usize>
    ensures { IfSome result (λ number. IsNumber ends.now count number) }
{
    for number in guess..guess.saturating_add(TRIED) {
        if is_number(ends, count, number) {
            return Some(number);
        }
    }
    None
}

/// Marks the instruction, where it is one of the core's.
fn mark(marks: &mut [bool], core: u8, at: Instr)
    ensures { (n : ℕ) → n < length marks.old →
        slice_index_or marks.new n false ≡ is_same at (instr core (n + 1)) || slice_index_or marks.old n false }
{
    if at.core == core && 1 <= at.count && at.count as usize <= marks.len() {
        marks[at.count as usize - 1] = true;
    }
}

/// Marks the core's counts at which an edge from one core to another begins or ends.
fn mark_pair(marks: &mut [bool], core: u8, from: u8, to: u8, counts: &[(u32, u32)])
    ensures { (n : ℕ) → n < length marks.old → slice_index_or marks.new n false
        ≡ is_end (map (edge_between from to) counts.now) (instr core (n + 1)) || slice_index_or marks.old n false }
{
    if from != core && to != core {
        return;
    }
    for &(source, target) in counts {
        let start = Instr {
            core: from,
            count: source,
        };
        let end = Instr {
            core: to,
            count: target,
        };
        mark(marks, core, start);
        mark(marks, core, end);
    }
}

/// Marks the core's counts at which a reduced edge begins or ends, pair by pair. None was marked before.
fn mark_edges(marks: &mut [bool], core: u8, recording: &Recording)
    requires valid { Valid recording.now }
    requires none { (n : ℕ) → n < length marks.old → slice_index_or marks.old n false ≡ false }
    ensures { (n : ℕ) → n < length marks.old →
        slice_index_or marks.new n false ≡ is_end (reduced_edges recording.now) (instr core (n + 1)) }
{
    let cores = recording.params.cores;
    for place in 0..pair_count(cores) {
        let (from, to) = pair_of(cores, place);
        let counts = recording.reduced.as_slice()[place].as_slice();
        mark_pair(marks, core, from, to, counts);
    }
}

/// The edge ends of a core, by rising count.
fn ends_of_core(
    alloc: Global,
    recording: &Recording,
    core: u8,
    total: u32,
) -> Result<Items<u32>, AllocError>
    requires { Valid recording.now }
    ensures { IfOk result (λ ends. ends ≡ ends_to (reduced_edges recording.now) core total) }
{
    let mut marks = vec![in alloc; false; total as usize]?;
    mark_edges(marks.as_mut_slice(), core, recording);
    let mut ends = Items::new(alloc);
    for before in 0..total {
        if marks[before as usize] {
            ends.push(before + 1)?;
        }
    }
    Ok(ends)
}

/// The edge ends of each core.
fn ends_of(alloc: Global, recording: &Recording) -> Result<Items<Items<u32>>, AllocError>
    requires { Valid recording.now }
    ensures { IfOk result (λ ends. ends ≡ ends_in recording.now) }
{
    let totals = recording.totals.as_slice();
    let mut ends = Items::new(alloc);
    for core in 0..recording.params.cores {
        ends.push(ends_of_core(alloc, recording, core, totals[core as usize])?)?;
    }
    Ok(ends)
}
