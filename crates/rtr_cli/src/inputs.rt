//! What each command makes of an input that it reads as a file: a recording, a certificate or a thin file.
ghost use Rattle.std.specs.Prelude.{IfErr, IfOk, OnOk};
ghost use Rattle.rtr_cli.specs.Commands.{Makes, Refuses};
ghost use Rattle.rtr_cli.specs.Promises.{Promised};
ghost use Rattle.tool_words.specs.declared.command.Command.TheVariants.{At, Certify, Check, CheckThin, Migrate, Print};
ghost use Rattle.tool_words.specs.declared.command.Command.TheVariants.{Thin, TsoReplay};

use crate::buffers::tso_replayed;
use crate::commands::{certified, checked};
use crate::cuts::state_at;
use crate::thins::{checked_thin, thinned};
use certificate_codec::read_certificate;
use log_codec::{read, spell};
use rtr_types::{Instr, Which};
use state_text::{Exit, logs_text};
use std::alloc::Global;
use tso_codec::tso_read;
use vector_reduce::read_thin;

/// The text of the recording's logs.
pub(crate) fn print_input(alloc: Global, input: &[u8]) -> Result<Vec<u8>, Exit>
    ensures made { IfOk result (λ out. Makes Print input.now out.items) }
    ensures refused { IfErr result (Refuses Print input.now) }
{
    let recording = read(alloc, input)?;
    Ok(logs_text(alloc, &recording)?)
}

/// The recording in the newest version.
pub(crate) fn migrate_input(alloc: Global, input: &[u8]) -> Result<Vec<u8>, Exit>
    ensures made { IfOk result (λ out. Makes Migrate input.now out.items) }
    ensures refused { IfErr result (Refuses Migrate input.now) }
{
    let recording = read(alloc, input)?;
    Ok(spell(alloc, &recording)?)
}

/// The certificate that the recording's reduced log is least.
pub(crate) fn certify_input(alloc: Global, input: &[u8]) -> Result<Vec<u8>, Exit>
    ensures made { IfOk result (λ out. Makes Certify input.now out.items) }
    ensures promised { OnOk result (Promised Certify input.now) }
    ensures refused { IfErr result (Refuses Certify input.now) }
{
    let recording = read(alloc, input)?;
    certified(alloc, recording)
}

/// The text of a check of the certificate.
pub(crate) fn check_input(alloc: Global, input: &[u8]) -> Result<Vec<u8>, Exit>
    ensures made { IfOk result (λ out. Makes Check input.now out.items) }
    ensures promised { OnOk result (Promised Check input.now) }
    ensures refused { IfErr result (Refuses Check input.now) }
{
    let certificate = read_certificate(alloc, input)?;
    checked(alloc, &certificate)
}

/// The text of the state at the instruction.
pub(crate) fn at_input(
    alloc: Global,
    input: &[u8],
    which: Which,
    at: Instr,
    latest: bool,
    loads: bool,
) -> Result<Vec<u8>, Exit>
    ensures made { IfOk result (λ out. Makes (At which at latest loads) input.now out.items) }
    ensures promised { OnOk result (Promised (At which at latest loads) input.now) }
    ensures refused { IfErr result (Refuses (At which at latest loads) input.now) }
{
    let recording = read(alloc, input)?;
    state_at(alloc, recording, which, at, latest, loads)
}

/// The thinned recording, or its thin file.
pub(crate) fn thin_input(alloc: Global, input: &[u8], certify: bool) -> Result<Vec<u8>, Exit>
    ensures made { IfOk result (λ out. Makes (Thin certify) input.now out.items) }
    ensures promised { OnOk result (Promised (Thin certify) input.now) }
    ensures refused { IfErr result (Refuses (Thin certify) input.now) }
{
    let recording = read(alloc, input)?;
    thinned(alloc, recording, certify)
}

/// The text of a check of the thin file.
pub(crate) fn check_thin_input(alloc: Global, input: &[u8]) -> Result<Vec<u8>, Exit>
    ensures made { IfOk result (λ out. Makes CheckThin input.now out.items) }
    ensures promised { OnOk result (Promised CheckThin input.now) }
    ensures refused { IfErr result (Refuses CheckThin input.now) }
{
    let thinned = read_thin(alloc, input)?;
    checked_thin(alloc, &thinned)
}

/// The text of how the low order of a recording of cores with store buffers ends.
pub(crate) fn tso_replay_input(alloc: Global, input: &[u8], loads: bool) -> Result<Vec<u8>, Exit>
    ensures made { IfOk result (λ out. Makes (TsoReplay loads) input.now out.items) }
    ensures promised { OnOk result (Promised (TsoReplay loads) input.now) }
    ensures refused { IfErr result (Refuses (TsoReplay loads) input.now) }
{
    let recording = tso_read(alloc, input)?;
    tso_replayed(alloc, recording, loads)
}
