//! Replays on several threads.
ghost use Rattle.std.specs.Prelude.{◌≡◌, ◌≢◌, ◌⊎◌, ℕ, List, IfErr, IfNone, IfOk, IfSome, OnOk, Some};
ghost use Rattle.log_codec.specs.Reading.{whole_at};
ghost use Rattle.race_log.specs.Validity.{Valid};
ghost use Rattle.replay_audit.specs.Determinate.{IsDeterminate};
ghost use Rattle.replay_core.specs.Plans.{plan_of};
ghost use Rattle.replay_table.specs.Seats.{IsEnd};
ghost use Rattle.rtr_io.specs.Faults.{HasRisen};
ghost use Rattle.tool_words.specs.Commands.{AreFewThreads, HasFittingParams};
ghost use Rattle.rtr_cli.specs.Answers.{Answers};
ghost use Rattle.rtr_cli.specs.Inputs.{SpellsSome};
ghost use Rattle.rtr_cli.specs.Replays.{AuditEnds, IsReplayed, replay_lines};
ghost use Rattle.rtr_cli.specs.Commands.{Makes, Refuses};
ghost use Rattle.rtr_cli.specs.Promises.{Promised};
ghost use Rattle.rtr_cli.specs.Completeness.{MakesWhole};
ghost use Rattle.rtr_cli.specs.Joints.{PrintsJoint, asked_by, command_of, joint_lines};

use crate::commands::{FILE_BYTES_MAX, audited, image};
use crate::tool::take;
use log_codec::read;
use race_log::Recording;
use replay_audit::laws::{every_order_agrees, replays_fit_their_plan};
use replay_table::Closed;
use replay_threads::{Gate, Joint, replay_parallel};
use rtr_io::{ReadEnd, Sink, Source, WriteFault, write_all};
use rtr_types::Which;
use state_text::{Exit, state_text};
use std::alloc::{AllocError, Global};
use std::sync::Wait;
use std::thread::Threads;
use tool_words::Command;

/// How the top call ended.
#[derive(Drop)]
pub struct Ended {
    /// What the report tells.
    pub exit: Exit,
    /// The table that was closed, exactly where the words mean `replay` with `--threads` and the exit is
    /// `Done`.
    pub joint: Option<Closed>,
}

/// A replay that words ask for on so many threads.
#[derive(Clone, Copy)]
pub(crate) struct Asked {
    pub(crate) which: Which,
    pub(crate) threads: u32,
    pub(crate) loads: bool,
}

impl Asked {
    /// The replay on several threads that words ask for, if their meaning is one.
    pub(crate) fn by(meant: &Option<Command>) -> Option<Asked>
        requires { IfSome meant.now HasFittingParams }
        ensures asked { result ≡ asked_by meant.now }
        ensures few { IfSome result (λ asked. AreFewThreads (Some asked.threads)) }
    {
        match meant {
            Some(
                Command::Replay {
                    which,
                    threads: Some(threads),
                    loads,
                },
            ) => Some(Asked {
                which: *which,
                threads: *threads,
                loads: *loads,
            }),
            Some(_) | None => None,
        }
    }
}

/// The text of what a closed table comes to, and the table.
#[derive(Drop)]
struct Made {
    out: Vec<u8>,
    closed: Closed,
}

/// Reads the recording, replays it, and gives the text of how that ended.
pub(crate) fn perform_joint<R: Threads + Wait + Sync, I: Source, O: Sink, G: Gate>(
    rt: &R,
    alloc: Global,
    asked: Asked,
    input: &mut I,
    output: &mut O,
    gate: &G,
) -> Ended
    requires { AreFewThreads (Some asked.threads) }
    ensures answered { Answers (command_of asked) result.exit (I.left input.old) (I.left input.new) (O.got output.old)
        (O.got output.new) }
    ensures read_fault { result.exit ≡ Exit.ReadFault → HasRisen (I.faults input.old) (I.faults input.new) }
    ensures no_read_fault { (result.exit ≡ Exit.ReadFault) ⊎ (I.faults input.new ≡ I.faults input.old) }
    ensures write_fault { result.exit ≡ Exit.WriteFault → HasRisen (O.faults output.old) (O.faults output.new) }
    ensures no_write_fault { (result.exit ≡ Exit.WriteFault) ⊎ (O.faults output.new ≡ O.faults output.old) }
    ensures complete { (bytes : List ℕ) → MakesWhole (command_of asked) bytes result.exit (I.left input.old)
        (I.faults input.old) (I.faults input.new) (O.faults output.old) (O.faults output.new) }
    ensures none { IfNone result.joint (result.exit ≢ Exit.Done) }
    ensures closed { IfSome result.joint (λ closed. (result.exit ≡ Exit.Done)
        × PrintsJoint asked closed (I.left input.old) (I.left input.new) (O.got output.old) (O.got output.new)) }
{
    let bytes = match take(alloc, Some(FILE_BYTES_MAX), input) {
        Ok(bytes) => bytes,
        Err(ReadEnd::ReadFault) => {
            return Ended {
                exit: Exit::ReadFault,
                joint: None,
            };
        }
        Err(ReadEnd::TooLarge) => {
            return Ended {
                exit: Exit::TooLarge,
                joint: None,
            };
        }
        Err(ReadEnd::OutOfMemory) => {
            return Ended {
                exit: Exit::OutOfMemory,
                joint: None,
            };
        }
    };
    let Made { out, closed } = match make_joint(rt, alloc, asked, bytes, gate) {
        Ok(made) => made,
        Err(exit) => {
            return Ended { exit, joint: None };
        }
    };
    match write_all(output, out.as_slice()) {
        Ok(()) => Ended {
            exit: Exit::Done,
            joint: Some(closed),
        },
        Err(WriteFault) => Ended {
            exit: Exit::WriteFault,
            joint: None,
        },
    }
}

/// The text of how a replay of the recording ended that the input spells, or how the command ends without one.
fn make_joint<R: Threads + Wait + Sync, G: Gate>(
    rt: &R,
    alloc: Global,
    asked: Asked,
    bytes: Vec<u8>,
    gate: &G,
) -> Result<Made, Exit>
    requires { AreFewThreads (Some asked.threads) }
    ensures made { IfOk result (λ made. Makes (command_of asked) bytes.items made.out.items) }
    ensures printed { IfOk result (λ made. SpellsSome (whole_at bytes.items)
        (λ r. (made.out.items ≡ joint_lines asked.loads made.closed r) × IsEnd (plan_of asked.which r) made.closed)) }
    ensures promised { OnOk result (Promised (command_of asked) bytes.items) }
    ensures refused { IfErr result (Refuses (command_of asked) bytes.items) }
{
    let recording = read(alloc, bytes.as_slice())?;
    replay_joint(rt, alloc, recording, asked, gate)
}

/// The text of how a replay of the recording on several threads ended, where the recording is determinate by
/// the log. No audit comes before; where the workers are unsure, one names the reason.
#[tactic(auto, using(crate::proofs::JointLemmas::joint_replayed))]
fn replay_joint<R: Threads + Wait + Sync, G: Gate>(
    rt: &R,
    alloc: Global,
    recording: Recording,
    asked: Asked,
    gate: &G,
) -> Result<Made, Exit>
    requires valid { Valid recording }
    requires few { AreFewThreads (Some asked.threads) }
    ensures made { IfOk result (λ made. made.out.items ≡ replay_lines asked.which asked.loads recording) }
    ensures printed { IfOk result (λ made. (made.out.items ≡ joint_lines asked.loads made.closed recording)
        × IsEnd (plan_of asked.which recording) made.closed) }
    ensures determinate { OnOk result (IsReplayed asked.which recording) }
    ensures refused { IfErr result (AuditEnds asked.which recording) }
{
    replays_fit_their_plan();
    every_order_agrees();
    match replay_parallel(rt, alloc, &recording, asked.which, asked.threads, gate) {
        Ok(Joint::Ran(closed)) => {
            let words = recording.params.words;
            let image = image(recording.into_image().into_vec(), words);
            let out = state_text(alloc, closed.outcome(), &image, asked.loads)?;
            Ok(Made { out, closed })
        }
        Ok(Joint::Unsure) => Err(refusal(alloc, recording, asked.which)),
        Err(AllocError) => Err(Exit::OutOfMemory),
    }
}

/// How a command ends that replays a recording which isn't determinate by the log.
fn refusal(alloc: Global, recording: Recording, which: Which) -> Exit
    requires valid { Valid recording }
    requires unsure { IsDeterminate which recording → ⊥ }
    ensures { AuditEnds which recording result }
{
    match audited(alloc, recording, which) {
        Ok(_) => unreachable!(),
        Err(exit) => exit,
    }
}
