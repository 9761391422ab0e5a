//! Runs of cores with store buffers, their recordings, and replays of these.
ghost use Rattle.std.specs.Prelude.{◌≡◌, ◌*◌, ◌<◌, ◌≤◌, ℕ, IfErr, IfOk, OnOk, length, slice_index, vec_len};
ghost use Rattle.replay_core.specs.Plans.{recorded_image};
ghost use Rattle.rtr_types.specs.Parameters.{Fits};
ghost use Rattle.state_text.specs.States.{IsOutcomeOf, state_lines};
ghost use Rattle.tool_words.specs.declared.command.Command.TheVariants.{TsoRecord, TsoRun};
ghost use Rattle.tso_codec.specs.Validity.{IsTso, plain_of};
ghost use Rattle.tso_recordings.specs.Follows.{tso_outcome_of};
ghost use Rattle.rtr_cli.specs.Inputs.{image_of};
ghost use Rattle.rtr_cli.specs.Buffers.{IsTsoReplayed, TsoEnds, exit_of_replay, tso_replay_lines};
ghost use Rattle.rtr_cli.specs.Commands.{Makes};
ghost use Rattle.rtr_cli.specs.Promises.{Promised};

use crate::commands::{Planned, image};
use replay_core::ReplayFault;
use rv_core::Outcome;
use state_text::{Exit, state_text};
use std::alloc::{AllocError, Global};
use tool_words::RunWords;
use tso_codec::{TsoRecording, tso_spell};
use tso_record::tso_record_image;
use tso_replay::tso_replay;
use tso_run::tso_run;

/// The recording of a run of the image that the input is, by cores with store buffers, spelled.
pub(crate) fn tso_record_input(
    alloc: Global,
    run: RunWords,
    input: Vec<u8>,
) -> Result<Vec<u8>, Exit>
    requires fits { Fits run.params }
    requires within { length input.items ≤ 4 * run.params.words }
    ensures made { IfOk result (λ out. Makes (TsoRecord run) input.items out.items) }
    ensures promised { OnOk result (Promised (TsoRecord run) input.items) }
    ensures refused { IfErr result (λ exit. exit ≡ Exit.OutOfMemory) }
{
    are_bytes(input.as_slice());
    let Planned { params, schedule } = Planned::of(run);
    let opening = image(input, params.words);
    let recording = tso_record_image(alloc, opening, params, schedule)?;
    Ok(tso_spell(alloc, &recording)?)
}

/// The text of how a run of the image ended that the input is, by cores with store buffers.
pub(crate) fn tso_run_input(
    alloc: Global,
    run: RunWords,
    loads: bool,
    input: Vec<u8>,
) -> Result<Vec<u8>, AllocError>
    requires fits { Fits run.params }
    requires within { length input.items ≤ 4 * run.params.words }
    ensures made { IfOk result (λ out. Makes (TsoRun run loads) input.items out.items) }
    ensures promised { OnOk result (Promised (TsoRun run loads) input.items) }
{
    Ok(tso_run_text(alloc, Planned::of(run), loads, input)?)
}

/// The text of how a run of the image ended, by cores with store buffers.
fn tso_run_text(
    alloc: Global,
    run: Planned,
    loads: bool,
    bytes: Vec<u8>,
) -> Result<Vec<u8>, AllocError>
    requires fits { Fits run.params }
    requires within { vec_len bytes ≤ 4 * run.params.words }
    ensures { IfOk result (λ out. out.items
        ≡ state_lines (tso_outcome_of (image_of run.params bytes.items) run.params run.schedule)
        (image_of run.params bytes.items) loads) }
{
    are_bytes(bytes.as_slice());
    let Planned { params, schedule } = run;
    let opening = image(bytes, params.words);
    let ran = tso_run(alloc, opening, params, schedule)?;
    state_text(alloc, &ran.outcome, &ran.image, loads)
}

/// Bytes are below 256.
fn are_bytes(bytes: &[u8])
    ensures { (i : ℕ) → slice_index bytes.now i < 256 }
{
    // The type of a byte says so.
    let _ = bytes;
}

/// The text of how the low order of the recording's reduced log ends, in which each logged load takes its recorded
/// word. Whether the log orders each two accesses that conflict isn't asked.
pub(crate) fn tso_replayed(
    alloc: Global,
    recording: TsoRecording,
    loads: bool,
) -> Result<Vec<u8>, Exit>
    requires { IsTso recording }
    ensures made { IfOk result (λ out. out.items ≡ tso_replay_lines loads recording) }
    ensures replayed { OnOk result (IsTsoReplayed recording) }
    ensures refused { IfErr result (TsoEnds recording) }
{
    match tso_replay(alloc, &recording) {
        Ok(outcome) => Ok(told(alloc, recording, &outcome, loads)?),
        Err(fault) => Err(exit_of_replay(fault)),
    }
}

/// The text of what a replay of the recording came to.
fn told(
    alloc: Global,
    recording: TsoRecording,
    outcome: &Outcome,
    loads: bool,
) -> Result<Vec<u8>, AllocError>
    requires valid { IsTso recording }
    requires fits { IsOutcomeOf (recorded_image (plain_of recording)) outcome.now }
    ensures { IfOk result (λ out. out.items
        ≡ state_lines outcome.now (recorded_image (plain_of recording)) loads) }
{
    let words = recording.params.words;
    let image = image(recording.into_image().into_vec(), words);
    state_text(alloc, outcome, &image, loads)
}

/// How a command ends whose replay was refused so.
fn exit_of_replay(fault: ReplayFault) -> Exit
    ensures { result ≡ exit_of_replay fault }
{
    match fault {
        ReplayFault::Stuck { cut } => Exit::Stuck { cut },
        ReplayFault::Short { core, count } => Exit::Short { core, count },
        ReplayFault::OutOfMemory => Exit::OutOfMemory,
    }
}
