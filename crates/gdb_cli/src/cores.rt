//! The core file of a moment.
ghost use Rattle.std.specs.Prelude.{IfErr, IfOk, OnOk};
ghost use Rattle.race_log.specs.Validity.{Valid};
ghost use Rattle.rtr_cli.specs.Replays.{IsReplayed};
ghost use Rattle.rtr_cli.specs.Cuts.{AtEnds};
ghost use Rattle.rtr_cli.specs.Commands.{Refuses};
ghost use Rattle.rtr_cli.specs.Promises.{Promised};
ghost use Rattle.gdb_cli.specs.Cores.{IsCoreAt, MakesCore, printed_by};

use crate::words::Moment;
use core_file::core_file;
use cut_replay::{has_instr, state_of};
use log_codec::read;
use race_log::Recording;
use replay_audit::laws::replays_fit_their_plan;
use rtr_cli::{audited, cut_at};
use rtr_types::Items;
use state_text::Exit;
use std::alloc::Global;

/// The core file of the moment in the recording that the bytes spell, or how the command ends without one.
pub(crate) fn core_of(alloc: Global, bytes: Vec<u8>, moment: Moment) -> Result<Items<u8>, Exit>
    ensures made { IfOk result (λ out. MakesCore moment bytes.items out) }
    ensures promised { OnOk result (Promised (printed_by moment) bytes.items) }
    ensures refused { IfErr result (Refuses (printed_by moment) bytes.items) }
{
    let recording = read(alloc, bytes.as_slice())?;
    core_at(alloc, recording, moment)
}

/// The core file of the moment in the recording. Whether the recording has the instruction is looked up before the
/// recording is audited.
fn core_at(alloc: Global, recording: Recording, moment: Moment) -> Result<Items<u8>, Exit>
    requires { Valid recording }
    ensures made { IfOk result (λ out. IsCoreAt moment recording out) }
    ensures determinate { OnOk result (IsReplayed moment.which recording) }
    ensures refused { IfErr result (AtEnds moment.which moment.at recording) }
{
    replays_fit_their_plan();
    let at = moment.at;
    if !has_instr(&recording, at) {
        return Err(Exit::NoInstr { at });
    }
    let audited = audited(alloc, recording, moment.which)?;
    let cut = cut_at(&audited, at, moment.latest)?;
    let outcome = state_of(alloc, &audited, &cut)?;
    Ok(core_file(alloc, &outcome, at.core)?)
}
