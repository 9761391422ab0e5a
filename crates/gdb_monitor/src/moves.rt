//! Moves that a command asks for.
ghost use Rattle.std.specs.Prelude.{◌≡◌, ◌↔◌, ◌<◌, IfOk, IsOkAnd, IsTrue, OnErr};
ghost use Rattle.race_log.specs.Validity.{Valid};
ghost use Rattle.cut_replay.specs.ClosedCuts.{IsClosed, IsCutOf};
ghost use Rattle.debug_place.specs.Places.{IsKept, cut_at};
ghost use Rattle.gdb_monitor.specs.Moves.{AreCounts, Comes, GoesAround, GoesIfClosed, GoesTo, GoesToCut, IsExtreme};
ghost use Rattle.gdb_moves.specs.Sights.{IsOf};
ghost use Rattle.gdb_monitor.specs.Moves.{BothComeNext, GoesToDecision, cut_with_counts};
ghost use Rattle.race_cuts.specs.OpenCuts.{ComesNext};

use crate::texts::{cut_text, no_core, no_counts, open_text};
use cut_moves::{earliest, hull, latest};
use cut_replay::{cut_with, cut_without, has_instr};
use debug_place::Place;
use gdb_commands::{Told, line};
use race_answers::no_instr;
use race_log::Recording;
use replay_audit::Audited;
use rtr_types::{CORES_MAX, Cut, Instr};
use std::alloc::{AllocError, Global};

/// A place for each core, as the length of an array.
const PLACES: usize = CORES_MAX as usize;

/// To a closed cut, which is told. A refusal, which comes for want of memory alone, leaves the place as it was.
pub(crate) fn go(alloc: Global, place: &mut Place, to: &Cut) -> Told
    requires { IsClosed place.old.which place.old.recording to.now }
    ensures kept { IsKept place.old place.new }
    ensures ok { IfOk result (Comes to.now place.new) }
    ensures err { OnErr result (place.new ≡ place.old) }
{
    let told = cut_text(alloc, to)?;
    place.seek(alloc, to)?;
    Ok(told)
}

/// To the least closed cut with an instruction.
pub(crate) fn go_to(alloc: Global, audited: &Audited, place: &mut Place, at: Instr) -> Told
    requires { IsOf audited.now place.old }
    ensures kept { IsKept place.old place.new }
    ensures ok { IfOk result (GoesTo at place.old place.new) }
    ensures err { OnErr result (place.new ≡ place.old) }
{
    if !has_instr(audited.recording(), at) {
        return no_instr(alloc, at);
    }
    let to = cut_with(audited, at)?;
    go(alloc, place, &to)
}

/// To the greatest closed cut without an instruction, if both it and another one come next there: the order of the two
/// was still open. Every edge of a least log is such a pair (`edges_are_decisions`).
pub(crate) fn go_to_decision(
    alloc: Global,
    audited: &Audited,
    place: &mut Place,
    at: Instr,
    other: Instr,
) -> Told
    requires { IsOf audited.now place.old }
    ensures kept { IsKept place.old place.new }
    ensures ok { IfOk result (GoesToDecision at other place.old place.new) }
    ensures err { OnErr result (place.new ≡ place.old) }
{
    if !has_instr(audited.recording(), at) {
        return no_instr(alloc, at);
    }
    if !has_instr(audited.recording(), other) {
        return no_instr(alloc, other);
    }
    let to = cut_without(audited, at)?;
    if both_come_next(&to, at, other) {
        go(alloc, place, &to)
    } else {
        line(alloc, "no decision: the log says more of their order")
    }
}

/// Whether both instructions are the next ones of their cores.
pub(crate) fn both_come_next(cut: &Cut, at: Instr, other: Instr) -> bool
    ensures { IsTrue result ↔ BothComeNext cut.now at other }
{
    comes_next(cut, at) && comes_next(cut, other)
}

/// Whether the instruction is the next one of its core.
fn comes_next(cut: &Cut, at: Instr) -> bool
    ensures { IsTrue result ↔ ComesNext cut.now at }
{
    match cut.counts.get(at.core as usize) {
        Some(count) => *count as u64 + 1 == at.count as u64,
        None => at.count == 1,
    }
}

/// The first or the last of the closed cuts in which a core stands where it does.
#[derive(Clone, Copy)]
pub(crate) enum Extreme {
    /// The others go back as far as the log lets them.
    Earliest,
    /// The others go on as far as the log lets them.
    Latest,
}

impl Extreme {
    /// The closed cut to which the others go where this core stays.
    pub(crate) fn around(self, audited: &Audited, cut: &Cut, core: u8) -> Result<Cut, AllocError>
        requires closed { IsClosed audited.now.which audited.now.recording cut.now }
        requires core { core < audited.now.recording.params.cores }
        ensures closed { IsOkAnd result (IsClosed audited.now.which audited.now.recording) }
        ensures is { IsOkAnd result (IsExtreme self audited.now.which audited.now.recording cut.now core) }
    {
        match self {
            Extreme::Earliest => earliest(audited, cut, core),
            Extreme::Latest => latest(audited, cut, core),
        }
    }
}

/// The core stays, and the others go as far as the log lets them.
pub(crate) fn go_around(
    alloc: Global,
    audited: &Audited,
    place: &mut Place,
    extreme: Extreme,
    core: u8,
) -> Told
    requires { IsOf audited.now place.old }
    ensures kept { IsKept place.old place.new }
    ensures ok { IfOk result (GoesAround extreme core place.old place.new) }
    ensures err { OnErr result (place.new ≡ place.old) }
{
    if core >= place.cores() {
        return no_core(alloc, core);
    }
    let to = extreme.around(audited, &place.cut(), core)?;
    go(alloc, place, &to)
}

/// To the cut with these counts, if it's closed.
pub(crate) fn go_to_cut(alloc: Global, audited: &Audited, place: &mut Place, counts: &[u32]) -> Told
    requires { IsOf audited.now place.old }
    ensures kept { IsKept place.old place.new }
    ensures ok { IfOk result (GoesToCut counts.now place.old place.new) }
    ensures err { OnErr result (place.new ≡ place.old) }
{
    if !are_counts(audited.recording(), counts) {
        return no_counts(alloc);
    }
    let to = cut_with_counts(place.cores(), counts);
    go_if_closed(alloc, audited, place, &to)
}

/// To a cut, if it's closed. Where it isn't, the least closed cut that contains it is told.
fn go_if_closed(alloc: Global, audited: &Audited, place: &mut Place, to: &Cut) -> Told
    requires run { IsOf audited.now place.old }
    requires cut { IsCutOf place.old.recording to.now }
    ensures kept { IsKept place.old place.new }
    ensures ok { IfOk result (GoesIfClosed to.now place.old place.new) }
    ensures err { OnErr result (place.new ≡ place.old) }
{
    let hull = hull(audited, to)?;
    if hull == *to {
        go(alloc, place, to)
    } else {
        open_text(alloc, &hull)
    }
}

/// Whether there is one count for each core, at most its total.
fn are_counts(recording: &Recording, counts: &[u32]) -> bool
    requires { Valid recording.now }
    ensures { IsTrue result ↔ AreCounts recording.now counts.now }
{
    if counts.len() != recording.params.cores as usize {
        return false;
    }
    let totals = recording.totals.as_slice();
    for core in 0..counts.len() {
        if counts[core] > totals[core] {
            return false;
        }
    }
    true
}

/// The cut with these counts, a count for each core.
fn cut_with_counts(cores: u8, given: &[u32]) -> Cut
    ensures { result ≡ cut_with_counts cores given.now }
{
    let mut counts = [0; PLACES];
    for core in 0..PLACES {
        counts[core] = given.get(core).copied().unwrap_or(0);
    }
    Cut { cores, counts }
}
