//! The exact clocks of an audited recording at its edge ends.
ghost use Rattle.std.specs.Prelude.{◌≡◌, ◌+◌, ◌≤◌, ◌<◌, ◌++◌, IfOk, OnOk, length, slice_index, take};
ghost use Rattle.rtr_types.specs.declared.TheConstants.{CORES_MAX};
ghost use Rattle.rtr_types.specs.declared.pairs.Which.TheVariants.{Reduced};
ghost use Rattle.clock_entries.specs.Ends.{ends_to};
ghost use Rattle.certificate_codec.specs.Ends.{reduced_edges};
ghost use Rattle.min_certificate.specs.Clocks.{AreClocksOf, HasClocks};

use certificate_codec::{CoreEntries, EdgeEnds};
use clock_core::Clock;
use replay_audit::Audited;
use rtr_types::{Instr, Items};
use std::alloc::{AllocError, Global};

/// Puts the first counts of a clock, one for each core, behind what the list has.
fn put_counts(counts: &mut Items<u32>, clock: &Clock, cores: u8) -> Result<(), AllocError>
    requires { cores ≤ CORES_MAX }
    ensures counts { OnOk result (counts.new ≡ counts.old ++ take cores clock.now) }
    ensures all { OnOk result (length counts.new ≡ length counts.old + cores) }
{
    for &count in &clock.as_slice()[..cores as usize] {
        counts.push(count)?;
    }
    Ok(())
}

/// The clocks of a core's edge ends.
fn clocks_of_core(
    alloc: Global,
    audited: &Audited,
    core: u8,
    ends: &[u32],
) -> Result<CoreEntries, AllocError>
    requires which { audited.now.which ≡ Reduced }
    requires core { core < audited.now.recording.params.cores }
    requires ends { ends.now ≡ ends_to (reduced_edges audited.now.recording) core
        (slice_index audited.now.recording.totals core) }
    ensures { IfOk result (AreClocksOf audited.now.recording core) }
{
    let cores = audited.recording().params.cores;
    let room = ends.len().saturating_mul(cores as usize);
    let mut counts = Items::from_vec(Vec::with_capacity(alloc, room)?);
    let mut near = 0;
    for &count in ends {
        let clock = audited.clock_near(Instr { core, count }, &mut near);
        put_counts(&mut counts, &clock, cores)?;
    }
    Ok(CoreEntries::new(ends.len(), cores as usize, counts))
}

/// The exact clocks at the edge ends of each core. They are those that the audit kept.
pub fn exact_clocks(
    alloc: Global,
    audited: &Audited,
    ends: &EdgeEnds,
) -> Result<Items<CoreEntries>, AllocError>
    requires which { audited.now.which ≡ Reduced }
    requires ends { ends.now ≡ audited.now.recording }
    ensures { IfOk result (HasClocks audited.now.recording) }
{
    let mut clocks = Items::new(alloc);
    for core in 0..ends.recording().params.cores {
        clocks.push(clocks_of_core(alloc, audited, core, ends.of_core(core))?)?;
    }
    Ok(clocks)
}
