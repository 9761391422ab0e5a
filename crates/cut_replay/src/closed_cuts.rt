//! The two closed cuts of an instruction, by the clocks of an audit.
ghost use Rattle.std.specs.Prelude.{◌<◌, ◌↔◌, IsOkAnd, IsTrue};
ghost use Rattle.race_log.specs.Validity.{Valid};
ghost use Rattle.replay_audit.specs.Audits.{IsInstrOf};
ghost use Rattle.cut_replay.specs.ClosedCuts.{IsGreatestWithout, IsLeastWith};
ghost use Rattle.cut_replay.specs.Frees.{AreFree};

use race_log::Recording;
use replay_audit::Audited;
use rtr_types::{CORES_MAX, Cut, Instr};
use std::alloc::AllocError;

/// A place for each core, as the length of an array.
const PLACES: usize = CORES_MAX as usize;

/// Whether the recording has the instruction: whether the core is one of its cores, and the count one of
/// 1 up to the core's total.
pub fn has_instr(recording: &Recording, at: Instr) -> bool
    requires { Valid recording.now }
    ensures { IsTrue result ↔ IsInstrOf recording.now at }
{
    at.core < recording.params.cores
        && 1 <= at.count
        && at.count <= recording.totals.as_slice()[at.core as usize]
}

/// The least cut that is closed under the audit's log and holds the instruction: as little of the run as
/// the log lets be done when the instruction has retired. By the instruction's clock; it takes no memory,
/// and is never refused.
pub fn cut_with(audited: &Audited, at: Instr) -> Result<Cut, AllocError>
    requires { IsInstrOf audited.now.recording at }
    ensures { IsOkAnd result (IsLeastWith audited.now.which audited.now.recording at) }
{
    let clock = audited.clock(at);
    let cores = audited.recording().params.cores;
    let mut counts = [0; PLACES];
    for core in 0..cores {
        counts[core as usize] = clock.get(core);
    }
    Ok(Cut { cores, counts })
}

/// The greatest cut that is closed under the audit's log and doesn't hold the instruction: as much of the
/// run as the log lets be done before the instruction retires. The instructions that need it are found
/// core by core, by their clocks; it takes no memory, and is never refused.
pub fn cut_without(audited: &Audited, at: Instr) -> Result<Cut, AllocError>
    requires { IsInstrOf audited.now.recording at }
    ensures { IsOkAnd result (IsGreatestWithout audited.now.which audited.now.recording at) }
{
    let cores = audited.recording().params.cores;
    let mut counts = [0; PLACES];
    for core in 0..cores {
        counts[core as usize] = free_of(audited, core, at);
    }
    Ok(Cut { cores, counts })
}

/// How many of the core's instructions neither are the instruction nor need it. They are its first ones,
/// so halving what is left finds them.
fn free_of(audited: &Audited, core: u8, at: Instr) -> u32
    requires core { core < audited.now.recording.params.cores }
    requires at { IsInstrOf audited.now.recording at }
    ensures { AreFree audited.now.which audited.now.recording at core result }
{
    let mut free = 0;
    let mut least = audited.recording().totals.as_slice()[core as usize];
    while free < least {
        let count = least - (least - free) / 2;
        if audited.clock(Instr { core, count }).covers(at) {
            least = count - 1;
        } else {
            free = count;
        }
    }
    free
}
