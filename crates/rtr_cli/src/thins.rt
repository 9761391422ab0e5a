//! Recordings whose regulated log has fewer vectors, and what shows that each of them is needed.
ghost use Rattle.std.specs.Prelude.{◌≡◌, IfErr, IfOk, OnOk};
ghost use Rattle.race_log.specs.Validity.{Valid};
ghost use Rattle.rtr_types.specs.declared.pairs.Which.TheVariants.{Regulated};
ghost use Rattle.vector_reduce.specs.Answers.{IsAccepted};
ghost use Rattle.vector_reduce.specs.Validity.{IsThin};
ghost use Rattle.rtr_cli.specs.Replays.{IsReplayed};
ghost use Rattle.rtr_cli.specs.Thinnings.{CheckThinEnds, IsThinnedTo, ThinEnds, thin_checked_lines, thinned_bytes};

use crate::commands::{audited, exit_of_audit};
use log_codec::spell;
use race_log::Recording;
use rtr_types::Which;
use state_text::{Exit, needed_text};
use std::alloc::{AllocError, Global};
use vector_reduce::{ThinCheckFault, ThinFault, Thinned, check_thin, spell_thin, thin};

/// The recording with fewer vectors, spelled; with `certify` as a thin file. It is audited first, by its regulated log,
/// and its vectors are counted before any is tried.
pub(crate) fn thinned(alloc: Global, recording: Recording, certify: bool) -> Result<Vec<u8>, Exit>
    requires { Valid recording }
    ensures made { IfOk result (λ out. IsThinnedTo certify recording out.items) }
    ensures determinate { OnOk result (IsReplayed Regulated recording) }
    ensures refused { IfErr result (ThinEnds recording) }
{
    let audited = audited(alloc, recording, Which::Regulated)?;
    match thin(alloc, &audited) {
        Ok(thinned) => Ok(spelled(alloc, &thinned, certify)?),
        Err(ThinFault::TooMany { vectors, edges }) => Err(Exit::TooMany { vectors, edges }),
        Err(ThinFault::OutOfMemory) => Err(Exit::OutOfMemory),
    }
}

/// What is written of a thinned recording.
fn spelled(alloc: Global, thinned: &Thinned, certify: bool) -> Result<Vec<u8>, AllocError>
    requires { IsThin thinned.now }
    ensures { IfOk result (λ out. out.items ≡ thinned_bytes certify thinned.now) }
{
    if certify {
        spell_thin(alloc, thinned)
    } else {
        spell(alloc, &thinned.recording)
    }
}

/// The text of a check of the thin file.
pub(crate) fn checked_thin(alloc: Global, thinned: &Thinned) -> Result<Vec<u8>, Exit>
    requires { IsThin thinned.now }
    ensures made { IfOk result (λ out. out.items ≡ thin_checked_lines thinned.now) }
    ensures accepted { OnOk result (IsAccepted thinned.now) }
    ensures refused { IfErr result (CheckThinEnds thinned.now) }
{
    match check_thin(alloc, thinned) {
        Ok(()) => Ok(needed_text(alloc, thinned.shown.len() as u64)?),
        Err(ThinCheckFault::Audit(fault)) => Err(exit_of_audit(fault)),
        Err(ThinCheckFault::NotShown { vector }) => Err(Exit::NotShown { vector }),
        Err(ThinCheckFault::OutOfMemory) => Err(Exit::OutOfMemory),
    }
}
