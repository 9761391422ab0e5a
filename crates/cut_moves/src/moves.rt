//! Moves from a closed cut to another.
ghost use Rattle.std.specs.Prelude.{◌≡◌, ◌+◌, ◌<◌, ◌≤◌, ◌↔◌, IsOkAnd, IsTrue, length, slice_index};
ghost use Rattle.replay_core.specs.Play.{instr};
ghost use Rattle.replay_audit.specs.Audits.{IsInstrOf};
ghost use Rattle.cut_replay.specs.ClosedCuts.{IsClosed, IsCutOf, IsGreatestWithout, IsLeastWith, count_in};
ghost use Rattle.cut_replay.specs.Frees.{IsNeededBy};
ghost use Rattle.cut_moves.specs.Steps.{AreFreeOf, AreWithout, IsHull, IsStep, IsStepBack, IsWholeCut, last_in};
ghost use Rattle.cut_moves.specs.Steps.{next_in};

use crate::lattice::{PLACES, union};
use cut_replay::{cut_with, cut_without};
use replay_audit::Audited;
use rtr_types::{Cut, Instr};
use std::alloc::AllocError;

/// A step of one core: the least closed cut that contains this one and holds the core's next instruction. The
/// core moves by exactly one instruction, and the others only as far as the log demands. It takes no memory,
/// and is never refused.
pub fn step(audited: &Audited, cut: &Cut, core: u8) -> Result<Cut, AllocError>
    requires closed { IsClosed audited.now.which audited.now.recording cut.now }
    requires next { IsInstrOf audited.now.recording (next_in cut.now core) }
    ensures step { IsOkAnd result (IsStep audited.now.which audited.now.recording cut.now (next_in cut.now core)) }
    ensures one { IsOkAnd result (λ to. count_in to core ≡ count_in cut.now core + 1) }
{
    // The audit passed, so an instruction comes with no later one of its core.
    let _ = audited.recording();
    let _ = audited.outcome();
    let count = cut.counts[core as usize] + 1;
    let least = cut_with(audited, Instr { core, count })?;
    Ok(union(cut, &least))
}

/// A step back of one core: the greatest closed cut within this one that lacks the core's last instruction.
/// The core moves back by exactly one instruction, and of the others what needs that one. It takes no memory,
/// and is never refused.
pub fn step_back(audited: &Audited, cut: &Cut, core: u8) -> Result<Cut, AllocError>
    requires closed { IsClosed audited.now.which audited.now.recording cut.now }
    requires last { IsInstrOf audited.now.recording (last_in cut.now core) }
    ensures back { IsOkAnd result
        (IsStepBack audited.now.which audited.now.recording cut.now (last_in cut.now core)) }
    ensures one { IsOkAnd result (λ to. count_in to core + 1 ≡ count_in cut.now core) }
{
    // The audit passed, so what needs an instruction is no earlier one of its core.
    let _ = audited.recording();
    let _ = audited.outcome();
    let count = cut.counts[core as usize];
    Ok(without(audited, cut, Instr { core, count }))
}

/// Of each core those of the cut's instructions that neither are the instruction nor need it.
fn without(audited: &Audited, cut: &Cut, at: Instr) -> Cut
    requires cut { IsCutOf audited.now.recording cut.now }
    requires at { IsInstrOf audited.now.recording at }
    ensures { AreWithout audited.now.which audited.now.recording cut.now at result }
{
    let cores = audited.recording().params.cores;
    let mut counts = [0; PLACES];
    for core in 0..cores {
        counts[core as usize] = free_of(audited, core, at, cut.counts[core as usize]);
    }
    Cut { cores, counts }
}

/// How many of the core's first instructions, of at most so many, neither are the instruction nor need it. Where only
/// few do, mostly all are free, or all but the last. Else halving what is left finds them.
fn free_of(audited: &Audited, core: u8, at: Instr, most: u32) -> u32
    requires core { core < audited.now.recording.params.cores }
    requires at { IsInstrOf audited.now.recording at }
    requires most { most ≤ slice_index audited.now.recording.totals core }
    ensures { AreFreeOf audited.now.which audited.now.recording at core most result }
{
    let mut free = 0;
    let mut least = most;
    while free < least {
        let count = next_asked(free, least, most);
        if needs(audited, core, count, at) {
            least = count - 1;
        } else {
            free = count;
        }
    }
    free
}

/// The count that is asked for next: the last one of all, the one before it, and then the middle one of those that are
/// left.
fn next_asked(free: u32, least: u32, most: u32) -> u32
    requires { free < least }
    ensures above { free < result }
    ensures below { result ≤ least }
{
    if free == 0 && most.saturating_sub(least) < 2 {
        return least;
    }
    least - (least - free) / 2
}

/// Whether the core's instruction with this count is the instruction, or needs it.
fn needs(audited: &Audited, core: u8, count: u32, at: Instr) -> bool
    requires at { IsInstrOf audited.now.recording at }
    requires core { core < audited.now.recording.params.cores }
    requires some { 1 ≤ count }
    requires most { count ≤ slice_index audited.now.recording.totals core }
    ensures { IsTrue result ↔ IsNeededBy audited.now.which audited.now.recording at core count }
{
    // A valid recording has no more cores than there may be.
    let _ = audited.recording();
    audited.clock(Instr { core, count }).covers(at)
}

/// The core stays, and the others go back as far as the log lets them: the least closed cut with the core's
/// last instruction, or with nothing at all where the core has none. It takes no memory, and is never refused.
pub fn earliest(audited: &Audited, cut: &Cut, core: u8) -> Result<Cut, AllocError>
    requires closed { IsClosed audited.now.which audited.now.recording cut.now }
    requires core { core < audited.now.recording.params.cores }
    ensures least { IsOkAnd result (IsLeastWith audited.now.which audited.now.recording (last_in cut.now core)) }
    ensures stays { IsOkAnd result (λ to. count_in to core ≡ count_in cut.now core) }
{
    // A valid recording has no more cores than there may be.
    let _ = audited.recording();
    least_with(audited, core, cut.counts[core as usize])
}

/// The core stays, and the others go on as far as the log lets them: the greatest closed cut without the core's
/// next instruction, or with all there is where the core has none. It takes no memory, and is never refused.
pub fn latest(audited: &Audited, cut: &Cut, core: u8) -> Result<Cut, AllocError>
    requires closed { IsClosed audited.now.which audited.now.recording cut.now }
    requires core { core < audited.now.recording.params.cores }
    ensures greatest { IsOkAnd result
        (IsGreatestWithout audited.now.which audited.now.recording (next_in cut.now core)) }
    ensures stays { IsOkAnd result (λ to. count_in to core ≡ count_in cut.now core) }
{
    let total = audited.recording().totals.as_slice()[core as usize];
    let count = cut.counts[core as usize];
    if count < total {
        return cut_without(
            audited,
            Instr {
                core,
                count: count + 1,
            },
        );
    }
    Ok(whole(audited))
}

/// The least closed cut that contains these counts, which may be no closed cut themselves. It takes no memory,
/// and is never refused.
pub fn hull(audited: &Audited, counts: &Cut) -> Result<Cut, AllocError>
    requires { IsCutOf audited.now.recording counts.now }
    ensures { IsOkAnd result (IsHull audited.now.which audited.now.recording counts.now) }
{
    let cores = audited.recording().params.cores;
    let mut hull = Cut {
        cores,
        counts: [0; PLACES],
    };
    for core in 0..cores {
        let least = least_with(audited, core, counts.counts[core as usize])?;
        hull = union(&hull, &least);
    }
    Ok(hull)
}

/// The least closed cut with so many instructions of the core, of which there may be none.
fn least_with(audited: &Audited, core: u8, count: u32) -> Result<Cut, AllocError>
    requires core { core < audited.now.recording.params.cores }
    requires most { count ≤ slice_index audited.now.recording.totals core }
    ensures { IsOkAnd result (IsLeastWith audited.now.which audited.now.recording (instr core count)) }
{
    if count > 0 {
        return cut_with(audited, Instr { core, count });
    }
    Ok(Cut {
        cores: audited.recording().params.cores,
        counts: [0; PLACES],
    })
}

/// The cut with all instructions of each core.
pub fn whole(audited: &Audited) -> Cut
    ensures { IsWholeCut audited.now.recording result }
{
    let cores = audited.recording().params.cores;
    let mut counts = [0; PLACES];
    for core in 0..cores {
        counts[core as usize] = audited.recording().totals.as_slice()[core as usize];
    }
    Cut { cores, counts }
}
