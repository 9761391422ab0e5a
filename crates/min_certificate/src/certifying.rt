//! Making a certificate.
ghost use Rattle.std.specs.Prelude.{◌≡◌, IfOk, IsOkUnless, MatchOption, MatchResult};
ghost use Rattle.rtr_types.specs.declared.pairs.Which.TheVariants.{Reduced};
ghost use Rattle.replay_audit.specs.Determinate.{IsDeterminate, low_accesses};
ghost use Rattle.min_certificate.specs.Answers.{Certifies, CertRefuses, IsFirstAmiss};
ghost use Rattle.min_certificate.specs.Clocks.{HasClocks};
ghost use Rattle.min_certificate.specs.Laws.{IsLeastIn};

use crate::answers::CertFault;
use crate::core_accesses::CoreAccesses;
use crate::entries::Entries;
use crate::exact_clocks::exact_clocks;
use certificate_codec::{Certificate, CoreEntries, EdgeEnds};
use replay_audit::Audited;
use rtr_types::{Access, Edge};
use std::alloc::{AllocError, Global};

/// The first edge, by pair and target, that no least log has, by exact clocks and the accesses of the low
/// order; none where the log is least.
fn first_amiss(
    alloc: Global,
    ends: EdgeEnds,
    clocks: &[CoreEntries],
    accesses: &[Access],
) -> Result<Option<Edge>, AllocError>
    requires determinate { IsDeterminate Reduced ends }
    requires clocks { HasClocks ends clocks.now }
    requires accesses { accesses.now ≡ low_accesses Reduced ends }
    ensures { IfOk result (λ amiss. MatchOption amiss (IsLeastIn ends.entry) (IsFirstAmiss ends.entry)) }
{
    let cores = ends.recording().params.cores;
    let totals = ends.recording().totals.as_slice();
    let accesses = CoreAccesses::new(alloc, cores, accesses, totals)?;
    let entries = Entries::new(ends, clocks);
    Ok(entries.first_amiss(&accesses))
}

/// The certificate that an audited recording's reduced log is least, with the exact clock at each edge end:
/// for each core the number of its instructions that are the end or lead to it by the log. The audit was
/// by the reduced log.
///
/// `NotLeast` comes exactly where the log isn't least, and names its first edge, by pair and target, that is
/// no conflict or is implied by the others.
pub fn certify(alloc: Global, audited: &Audited) -> Result<Certificate, CertFault>
    requires { audited.now.which ≡ Reduced }
    ensures answer { MatchResult result (Certifies audited.now.recording) (CertRefuses audited.now.recording) }
    // A least log is certified, unless memory runs out.
    ensures complete { IsLeastIn audited.now.recording → IsOkUnless result CertFault.OutOfMemory }
{
    let ends = EdgeEnds::new(alloc, audited.recording())?;
    let clocks = exact_clocks(alloc, audited, &ends)?;
    match first_amiss(alloc, ends, clocks.as_slice(), audited.accesses())? {
        Some(edge) => Err(CertFault::NotLeast { edge }),
        None => {
            let recording = audited.recording().copied(alloc)?;
            Ok(Certificate { recording, clocks })
        }
    }
}
