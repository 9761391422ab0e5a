//! Checking a certificate.
ghost use Rattle.std.specs.Prelude.{◌≡◌, IfOk, IsOkUnless, MatchOption, MatchResult};
ghost use Rattle.rtr_types.specs.declared.pairs.Which.TheVariants.{Reduced};
ghost use Rattle.race_log.specs.Validity.{Valid};
ghost use Rattle.replay_audit.specs.Audits.{IsAuditOf};
ghost use Rattle.replay_audit.specs.Determinate.{IsDeterminate, low_accesses};
ghost use Rattle.certificate_codec.specs.Validity.{IsCertificate};
ghost use Rattle.min_certificate.specs.Answers.{Checks, CheckRefuses, CheckFails};
ghost use Rattle.min_certificate.specs.Laws.{Passes};

use crate::answers::{CheckFailure, CheckFault};
use crate::core_accesses::CoreAccesses;
use crate::entries::Entries;
use certificate_codec::{Certificate, EdgeEnds};
use replay_audit::{Audited, audit};
use rtr_types::Which;
use std::alloc::{AllocError, Global};

/// What the certificate of a determinate recording fails to show, if anything, by the accesses of its low
/// order: an edge that is no conflict, else an entry that isn't good, else an edge that isn't needed.
fn failure_of(entries: &Entries, accesses: &CoreAccesses) -> Option<CheckFailure>
    requires valid { Valid entries.now.recording }
    requires determinate { IsDeterminate Reduced entries.now.recording }
    requires accesses { accesses.now ≡ low_accesses Reduced entries.now.recording }
    ensures { MatchOption result (Passes entries.now) (CheckFails entries.now) }
{
    if let Some(edge) = accesses.first_without(entries.edges()) {
        return Some(CheckFailure::NotConflict { edge });
    }
    if let Some((core, entry)) = entries.first_bad() {
        return Some(CheckFailure::BadClock { core, entry });
    }
    match entries.first_not_needed() {
        Some(edge) => Some(CheckFailure::NotNeeded { edge }),
        None => None,
    }
}

/// The same by an audit of the certificate's recording.
fn first_failure(
    alloc: Global,
    audited: &Audited,
    certificate: &Certificate,
) -> Result<Option<CheckFailure>, AllocError>
    requires valid { Valid certificate.now.recording }
    requires audit { IsAuditOf Reduced certificate.now.recording audited.now }
    ensures { IfOk result (λ failure. MatchOption failure (Passes certificate.now) (CheckFails certificate.now)) }
{
    let cores = certificate.recording.params.cores;
    let totals = certificate.recording.totals.as_slice();
    let accesses = CoreAccesses::new(alloc, cores, audited.accesses(), totals)?;
    let ends = EdgeEnds::new(alloc, &certificate.recording)?;
    let entries = Entries::new(ends, certificate.clocks.as_slice());
    Ok(failure_of(&entries, &accesses))
}

/// Whether a certificate shows what it says, whoever made it: where the answer is Ok, the recording is
/// determinate by its reduced log and that log is least, for the accesses of every whole replay order.
///
/// Tested are, in this order, the audit by the reduced log; each edge for being a conflict; each entry for
/// being good, by core and by its number in the core; each edge for being needed. Edges go by pair and then
/// by target. The answer names the first that fails.
pub fn check(alloc: Global, certificate: &Certificate) -> Result<(), CheckFault>
    requires { IsCertificate certificate.now }
    ensures answer { MatchResult result (λ _. Checks certificate.now) (CheckRefuses certificate.now) }
    // What passes is accepted, unless memory runs out: so is what `certify` gives.
    ensures complete { IsDeterminate Reduced certificate.now.recording → Passes certificate.now →
        IsOkUnless result CheckFault.OutOfMemory }
{
    let recording = certificate.recording.copied(alloc)?;
    let audited = audit(alloc, recording, Which::Reduced)?;
    match first_failure(alloc, &audited, certificate)? {
        Some(failure) => Err(CheckFault::Failed(failure)),
        None => Ok(()),
    }
}
