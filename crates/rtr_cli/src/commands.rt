//! What each command makes of its input, before a byte is given.
ghost use Rattle.std.specs.Prelude.{◌≡◌, ◌*◌, ◌≤◌, IfErr, IfOk, MatchResult, OnOk, Ok, length, vec_len};
ghost use Rattle.log_codec.specs.Faults.{Gives};
ghost use Rattle.log_codec.specs.Spelling.{spelling};
ghost use Rattle.race_log.specs.Validity.{Valid};
ghost use Rattle.run_outcome.specs.Outcomes.{outcome_of};
ghost use Rattle.run_records.specs.Recordings.{recording_of};
ghost use Rattle.replay_audit.specs.Audits.{EveryOrderAgrees, IsAuditOf, IsReplayOf};
ghost use Rattle.replay_audit.specs.Determinate.{IsDeterminate, low_outcome};
ghost use Rattle.replay_core.specs.Plans.{recorded_image};
ghost use Rattle.rtr_types.specs.Parameters.{Fits};
ghost use Rattle.rtr_types.specs.declared.pairs.Which.TheVariants.{Reduced};
ghost use Rattle.schedule_pick.specs.Choices.{choices_of};
ghost use Rattle.state_text.specs.States.{state_lines};
ghost use Rattle.tool_words.specs.Commands.{HasFittingParams};
ghost use Rattle.min_certificate.specs.Answers.{Checks};
ghost use Rattle.min_certificate.specs.Laws.{IsLeastIn};
ghost use Rattle.certificate_codec.specs.Validity.{IsCertificate};
ghost use Rattle.rtr_cli.specs.Inputs.{IsWithin, image_of, loaded, most_of, run_bytes_max};
ghost use Rattle.rtr_cli.specs.Replays.{AuditEnds, IsReplayed, exit_of_audit, replay_lines};
ghost use Rattle.rtr_cli.specs.Runs.{LoadEnds};
ghost use Rattle.rtr_cli.specs.Certificates.{CertifyEnds, CheckEnds, IsCertified, checked_lines};
ghost use Rattle.rtr_cli.specs.Commands.{Makes, Refuses};
ghost use Rattle.rtr_cli.specs.Promises.{Promised};
ghost use Rattle.tool_words.specs.declared.command.Command.TheVariants.{Record, Run};

use crate::buffers::{tso_record_input, tso_run_input};
use crate::inputs::{
    at_input, certify_input, check_input, check_thin_input, migrate_input, print_input, thin_input,
    tso_replay_input,
};
use crate::soaks::soak;
use certificate_codec::{Certificate, spell_certificate};
use flat_run::run_flat;
use image_elf::{ElfFault, flatten};
use image_mem::Image;
use log_codec::{read, spell};
use min_certificate::{CertFault, CheckFailure, CheckFault, certify, check};
use race_log::Recording;
use recorder::record_image;
use replay_audit::laws::replays_fit_their_plan;
use replay_audit::{AuditFault, Audited, audit, replayed};
use rtr_types::{Params, Which};
use run_outcome::laws::a_run_fits_its_image;
use rv_core::Outcome;
use schedule_pick::Schedule;
use state_text::{Exit, check_text, state_text};
use std::alloc::{AllocError, Global};
use tool_words::{Command, RunWords};
use trace_gen::gen_image;

/// The most bytes that a command takes which reads a recording, a certificate or an ELF file: 512 MiB.
pub(crate) const FILE_BYTES_MAX: usize = 536_870_912;

/// The most bytes of input that the command takes; a command that makes its own image takes no input.
pub(crate) fn most_of(command: &Command) -> Option<usize>
    ensures { result ≡ most_of command.now }
{
    match command {
        Command::Record(run) | Command::Run { run, .. } => Some(run_bytes_max(run)),
        Command::TsoRecord(run) | Command::TsoRun { run, .. } => Some(
            4 * run.params.words as usize,
        ),
        Command::Print
        | Command::Replay { .. }
        | Command::Migrate
        | Command::Certify
        | Command::Check
        | Command::At { .. }
        | Command::Thin { .. }
        | Command::CheckThin
        | Command::TsoReplay { .. } => Some(FILE_BYTES_MAX),
        Command::Gen { .. } | Command::Soak { .. } => None,
    }
}

/// The most bytes of a run's input. An image has at most those of the memory.
fn run_bytes_max(run: &RunWords) -> usize
    ensures { result ≡ run_bytes_max run.now }
{
    if run.elf {
        FILE_BYTES_MAX
    } else {
        4 * run.params.words as usize
    }
}

/// The whole output of the command for this input, or how the command ends without one.
pub(crate) fn make(alloc: Global, command: Command, bytes: Vec<u8>) -> Result<Vec<u8>, Exit>
    requires fits { HasFittingParams command }
    requires within { IsWithin (most_of command) bytes.items }
    ensures made { IfOk result (λ out. Makes command bytes.items out.items) }
    ensures promised { OnOk result (Promised command bytes.items) }
    ensures refused { IfErr result (Refuses command bytes.items) }
{
    match command {
        Command::Record(run) => record_input(alloc, run, bytes),
        Command::Run { run, loads } => run_input(alloc, run, loads, bytes),
        Command::Print => print_input(alloc, bytes.as_slice()),
        Command::Replay { which, loads, .. } => {
            let recording = read(alloc, bytes.as_slice())?;
            replay(alloc, recording, which, loads)
        }
        Command::Migrate => migrate_input(alloc, bytes.as_slice()),
        Command::Certify => certify_input(alloc, bytes.as_slice()),
        Command::Check => check_input(alloc, bytes.as_slice()),
        Command::Gen { shape, number } => Ok(gen_image(alloc, number, shape)?),
        Command::Soak {
            shape,
            number,
            params,
            seed,
        } => soak(alloc, shape, number, params, seed),
        Command::At {
            which,
            at,
            latest,
            loads,
        } => at_input(alloc, bytes.as_slice(), which, at, latest, loads),
        Command::Thin { certify } => thin_input(alloc, bytes.as_slice(), certify),
        Command::CheckThin => check_thin_input(alloc, bytes.as_slice()),
        Command::TsoRecord(run) => tso_record_input(alloc, run, bytes),
        Command::TsoRun { run, loads } => Ok(tso_run_input(alloc, run, loads, bytes)?),
        Command::TsoReplay { loads } => tso_replay_input(alloc, bytes.as_slice(), loads),
    }
}

/// The parameters and the schedule of a run.
#[derive(Drop)]
pub(crate) struct Planned {
    pub(crate) params: Params,
    pub(crate) schedule: Schedule,
}

impl Planned {
    /// The run that words ask for.
    pub(crate) fn of(run: RunWords) -> Planned
        ensures params { result.params ≡ run.params }
        ensures schedule { result.schedule ≡ choices_of run.choices run.seed }
    {
        let RunWords {
            params,
            choices,
            seed,
            ..
        } = run;
        Planned {
            params,
            schedule: Schedule::new(choices.into_vec(), seed),
        }
    }
}

/// The recording of a run of the image that the input is, spelled.
#[tactic(auto, using(crate::proofs::RecordingLemmas::record_promised))]
fn record_input(alloc: Global, run: RunWords, input: Vec<u8>) -> Result<Vec<u8>, Exit>
    requires fits { Fits run.params }
    requires within { length input.items ≤ run_bytes_max run }
    ensures made { IfOk result (λ out. Makes (Record run) input.items out.items) }
    ensures promised { OnOk result (Promised (Record run) input.items) }
    ensures refused { IfErr result (LoadEnds run input.items) }
{
    let bytes = loaded(alloc, &run, input)?;
    Ok(record(alloc, Planned::of(run), bytes)?)
}

/// The text of how a run of the image ended that the input is.
fn run_input(alloc: Global, run: RunWords, loads: bool, input: Vec<u8>) -> Result<Vec<u8>, Exit>
    requires fits { Fits run.params }
    requires within { length input.items ≤ run_bytes_max run }
    ensures made { IfOk result (λ out. Makes (Run run loads) input.items out.items) }
    ensures promised { OnOk result (Promised (Run run loads) input.items) }
    ensures refused { IfErr result (LoadEnds run input.items) }
{
    let bytes = loaded(alloc, &run, input)?;
    Ok(run_text(alloc, Planned::of(run), loads, bytes)?)
}

/// The bytes of the image that a run begins with: the input, or the flat image of the ELF file that it is.
fn loaded(alloc: Global, run: &RunWords, input: Vec<u8>) -> Result<Vec<u8>, Exit>
    requires fits { Fits run.now.params }
    requires within { length input.items ≤ run_bytes_max run.now }
    ensures loaded { MatchResult result (λ bytes. loaded run.now input.items ≡ Ok bytes.items)
        (LoadEnds run.now input.items) }
    ensures room { IfOk result (λ bytes. length bytes.items ≤ 4 * run.now.params.words) }
{
    if !run.elf {
        return Ok(input);
    }
    match flatten(alloc, input.as_slice(), run.params.words) {
        Ok(bytes) => Ok(bytes),
        Err(ElfFault::OutOfMemory) => Err(Exit::OutOfMemory),
        Err(fault) => Err(Exit::Elf(fault)),
    }
}

/// The recording of a run of the image, spelled.
fn record(alloc: Global, run: Planned, bytes: Vec<u8>) -> Result<Vec<u8>, AllocError>
    requires fits { Fits run.params }
    requires within { vec_len bytes ≤ 4 * run.params.words }
    ensures { IfOk result (λ out. out.items
        ≡ spelling (recording_of (image_of run.params bytes.items) run.params run.schedule)) }
{
    let Planned { params, schedule } = run;
    let image = image(bytes, params.words);
    let recording = record_image(alloc, image, params, schedule)?;
    spell(alloc, &recording)
}

/// The text of how a run of the image ended.
fn run_text(alloc: Global, run: Planned, loads: bool, bytes: Vec<u8>) -> Result<Vec<u8>, AllocError>
    requires fits { Fits run.params }
    requires within { vec_len bytes ≤ 4 * run.params.words }
    ensures { IfOk result (λ out. out.items
        ≡ state_lines (outcome_of (image_of run.params bytes.items) run.params run.schedule)
        (image_of run.params bytes.items) loads) }
{
    a_run_fits_its_image();
    let Planned { params, schedule } = run;
    let opening = image(bytes, params.words);
    let ran = run_flat(alloc, opening, params, schedule)?;
    state_text(alloc, &ran.outcome, &ran.image, loads)
}

/// The text of how the low order of the recording's log ends, where the recording is determinate by it.
fn replay(alloc: Global, recording: Recording, which: Which, loads: bool) -> Result<Vec<u8>, Exit>
    requires { Valid recording }
    ensures made { IfOk result (λ out. out.items ≡ replay_lines which loads recording) }
    ensures determinate { OnOk result (IsReplayed which recording) }
    ensures refused { IfErr result (AuditEnds which recording) }
{
    replays_fit_their_plan();
    let (recording, outcome) = replay_of(alloc, recording, which)?;
    let words = recording.params.words;
    let image = image(recording.into_image().into_vec(), words);
    Ok(state_text(alloc, &outcome, &image, loads)?)
}

/// The recording and the outcome of its log's low order, or how a command ends that needs it. It is refused where the
/// audit is, and for its reason.
fn replay_of(
    alloc: Global,
    recording: Recording,
    which: Which,
) -> Result<(Recording, Outcome), Exit>
    requires { Valid recording }
    ensures { MatchResult result
        (λ parts. (parts.0 ≡ recording) × IsReplayOf which recording parts.1)
        (AuditEnds which recording) }
{
    match replayed(alloc, recording, which) {
        Ok(parts) => Ok(parts),
        Err(fault) => Err(exit_of_audit(fault)),
    }
}

/// The audit of the recording by one of its logs, or how a command ends that needs it. It is refused where the audit
/// is, and for its reason.
pub fn audited(alloc: Global, recording: Recording, which: Which) -> Result<Audited, Exit>
    requires { Valid recording }
    ensures { MatchResult result (IsAuditOf which recording) (AuditEnds which recording) }
{
    match audit(alloc, recording, which) {
        Ok(audited) => Ok(audited),
        Err(fault) => Err(exit_of_audit(fault)),
    }
}

/// How a command ends whose audit was refused so.
pub(crate) fn exit_of_audit(fault: AuditFault) -> Exit
    ensures { result ≡ exit_of_audit fault }
{
    match fault {
        AuditFault::Stuck { cut } => Exit::Stuck { cut },
        AuditFault::Short { core, count } => Exit::Short { core, count },
        AuditFault::Undetermined { first, second } => Exit::Undetermined { first, second },
        AuditFault::OutOfMemory => Exit::OutOfMemory,
    }
}

/// The spelled certificate that the recording's reduced log is least.
pub(crate) fn certified(alloc: Global, recording: Recording) -> Result<Vec<u8>, Exit>
    requires { Valid recording }
    ensures made { IfOk result (λ out. IsCertified recording out.items) }
    ensures promised { OnOk result (IsDeterminate Reduced recording × IsLeastIn recording) }
    ensures refused { IfErr result (CertifyEnds recording) }
{
    let audited = audited(alloc, recording, Which::Reduced)?;
    match certify(alloc, &audited) {
        Ok(certificate) => Ok(spell_certificate(alloc, &certificate)?),
        Err(CertFault::NotLeast { edge }) => {
            Err(Exit::CheckFailed(CheckFailure::NotLeast { edge }))
        }
        Err(CertFault::OutOfMemory) => Err(Exit::OutOfMemory),
    }
}

/// The text of a check of the certificate.
pub(crate) fn checked(alloc: Global, certificate: &Certificate) -> Result<Vec<u8>, Exit>
    requires { IsCertificate certificate.now }
    ensures made { IfOk result (λ out. out.items ≡ checked_lines certificate.now) }
    ensures promised { OnOk result (Checks certificate.now) }
    ensures refused { IfErr result (CheckEnds certificate.now) }
{
    match check(alloc, certificate) {
        Ok(()) => {
            let edges = certificate.recording.edge_count(Which::Reduced);
            Ok(check_text(alloc, edges)?)
        }
        Err(CheckFault::Audit(fault)) => Err(exit_of_audit(fault)),
        Err(CheckFault::Failed(failure)) => Err(Exit::CheckFailed(failure)),
        Err(CheckFault::OutOfMemory) => Err(Exit::OutOfMemory),
    }
}

/// The image of these bytes, which fit into the memory.
pub(crate) fn image(bytes: Vec<u8>, words: u32) -> Image
    requires { vec_len bytes ≤ 4 * words }
    ensures { result ≡ record { bytes = bytes.items; words = words } }
{
    match Image::flat(bytes, words) {
        Ok(image) => image,
        Err(_) => unreachable!(),
    }
}
