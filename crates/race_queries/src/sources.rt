//! The edges of the log at an instruction.
ghost use Rattle.std.specs.Prelude.{◌+◌, ◌<◌, IfOk, OnOk};
ghost use Rattle.race_log.specs.Validity.{Valid};
ghost use Rattle.race_queries.specs.Places.{AreTargetsUpTo};
ghost use Rattle.race_queries.specs.Queries.{AreEdgesInto, AreEdgesOutOf};

use race_log::Recording;
use replay_audit::Audited;
use rtr_types::{Instr, Items, Which};
use std::alloc::{AllocError, Global};

/// The instructions from which an edge of the log leads to this one, by core: at most one of each.
pub fn edges_into(alloc: Global, audited: &Audited, at: Instr) -> Result<Items<Instr>, AllocError>
    ensures { IfOk result (AreEdgesInto audited.now.which audited.now.recording at) }
{
    let recording = audited.recording();
    let mut list = Vec::new(alloc);
    for core in 0..recording.params.cores {
        if let Some(count) = recording.source(audited.which(), core, at) {
            list.push(Instr { core, count })?;
        }
    }
    Ok(Items::from_vec(list))
}

/// The instructions to which an edge of the log leads from this one, by core. Each instruction of the other cores
/// is asked for its source, so it takes time by the length of the run.
pub fn edges_out_of(alloc: Global, audited: &Audited, at: Instr) -> Result<Items<Instr>, AllocError>
    ensures { IfOk result (AreEdgesOutOf audited.now.which audited.now.recording at) }
{
    let recording = audited.recording();
    let mut list = Vec::new(alloc);
    for core in 0..recording.params.cores {
        put_targets(recording, audited.which(), at, core, &mut list)?;
    }
    Ok(Items::from_vec(list))
}

/// Puts the core's instructions to which an edge leads from this one at the end of the list.
fn put_targets(
    recording: &Recording,
    which: Which,
    at: Instr,
    core: u8,
    list: &mut Vec<Instr>,
) -> Result<(), AllocError>
    requires valid { Valid recording.now }
    requires core { core < recording.now.params.cores }
    requires before { AreTargetsUpTo which recording.now at core 0 list.old.items }
    ensures { OnOk result (AreTargetsUpTo which recording.now at (core + 1) 0 list.new.items) }
{
    let total = recording.totals.as_slice()[core as usize];
    for done in 0..total {
        let to = Instr {
            core,
            count: done + 1,
        };
        if recording.source(which, at.core, to) == Some(at.count) {
            list.push(to)?;
        }
    }
    Ok(())
}
