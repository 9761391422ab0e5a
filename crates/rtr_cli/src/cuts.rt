//! The state at an instruction of a recording.
ghost use Rattle.std.specs.Prelude.{◌≡◌, IfErr, IfOk, OnOk};
ghost use Rattle.race_log.specs.Validity.{Valid};
ghost use Rattle.replay_audit.specs.Audits.{IsInstrOf};
ghost use Rattle.replay_core.specs.Plans.{recorded_image};
ghost use Rattle.state_text.specs.Cuts.{cut_state_lines};
ghost use Rattle.state_text.specs.States.{IsOutcomeOf};
ghost use Rattle.rtr_cli.specs.Replays.{IsReplayed};
ghost use Rattle.rtr_cli.specs.Cuts.{AtEnds, IsCutAt, IsToldAt};

use crate::commands::{audited, image};
use cut_replay::{cut_with, cut_without, has_instr, state_of};
use race_log::Recording;
use replay_audit::Audited;
use replay_audit::laws::replays_fit_their_plan;
use rtr_types::{Cut, Instr, Which};
use rv_core::Outcome;
use state_text::{Exit, cut_state_text};
use std::alloc::{AllocError, Global};

/// The text of the state at an instruction: the cut that is asked for, and then what it comes to. Whether the recording
/// has the instruction is looked up before the recording is audited.
pub(crate) fn state_at(
    alloc: Global,
    recording: Recording,
    which: Which,
    at: Instr,
    latest: bool,
    loads: bool,
) -> Result<Vec<u8>, Exit>
    requires { Valid recording }
    ensures made { IfOk result (λ out. IsToldAt which at latest loads recording out.items) }
    ensures determinate { OnOk result (IsReplayed which recording) }
    ensures refused { IfErr result (AtEnds which at recording) }
{
    replays_fit_their_plan();
    if !has_instr(&recording, at) {
        return Err(Exit::NoInstr { at });
    }
    let audited = audited(alloc, recording, which)?;
    let cut = cut_at(&audited, at, latest)?;
    let outcome = state_of(alloc, &audited, &cut)?;
    let (recording, _) = audited.into_parts();
    Ok(told(alloc, recording, &cut, &outcome, loads)?)
}

/// The text of the cut and of what it comes to.
fn told(
    alloc: Global,
    recording: Recording,
    cut: &Cut,
    outcome: &Outcome,
    loads: bool,
) -> Result<Vec<u8>, AllocError>
    requires valid { Valid recording }
    requires fits { IsOutcomeOf (recorded_image recording) outcome.now }
    ensures { IfOk result (λ out. out.items
        ≡ cut_state_lines cut.now outcome.now (recorded_image recording) loads) }
{
    let words = recording.params.words;
    let image = image(recording.into_image().into_vec(), words);
    cut_state_text(alloc, cut, outcome, &image, loads)
}

/// The closed cut that is asked for at an instruction of the recording: the least that has it, or with `latest` the
/// greatest that doesn't. It is refused for want of memory alone.
pub fn cut_at(audited: &Audited, at: Instr, latest: bool) -> Result<Cut, AllocError>
    requires { IsInstrOf audited.now.recording at }
    ensures { IfOk result (IsCutAt audited.now.which audited.now.recording at latest) }
{
    if latest {
        cut_without(audited, at)
    } else {
        cut_with(audited, at)
    }
}
