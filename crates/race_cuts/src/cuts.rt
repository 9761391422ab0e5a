//! The first and the last cut at which both instructions of an edge come next.
ghost use Rattle.std.specs.Prelude.{◌≡◌, IsOkAnd};
ghost use Rattle.rtr_types.specs.declared.cut.Cut.{Cut};
ghost use Rattle.rtr_types.specs.declared.pairs.Which.TheVariants.{Reduced};
ghost use Rattle.race_log.specs.Sources.{HasEdge};
ghost use Rattle.cut_replay.specs.ClosedCuts.{IsContained};
ghost use Rattle.min_certificate.specs.Laws.{IsLeastIn};
ghost use Rattle.race_cuts.specs.OpenCuts.{IsOpenCut};

use cut_moves::intersection;
use cut_replay::{cut_with, cut_without};
use replay_audit::Audited;
use rtr_types::{Cut, Instr};
use std::alloc::AllocError;

/// The last cut at which both instructions of an edge come next: all is done that doesn't need the source. It takes no
/// memory, and is never refused.
pub fn last_cut(audited: &Audited, source: Instr, target: Instr) -> Result<Cut, AllocError>
    requires reduced { audited.now.which ≡ Reduced }
    requires least { IsLeastIn audited.now.recording }
    requires edge { HasEdge Reduced audited.now.recording source target }
    ensures both { IsOkAnd result (IsOpenCut Reduced audited.now.recording source target) }
    ensures last { IsOkAnd result (λ cut. (other : Cut) →
        IsOpenCut Reduced audited.now.recording source target other → IsContained other cut) }
{
    // The audit passed, so the log suffices.
    let _ = audited.recording();
    let _ = audited.outcome();
    let cut = cut_without(audited, source)?;
    Ok(cut)
}

/// The first one: only what the two instructions need is done. It takes no memory, and is never refused.
pub fn first_cut(audited: &Audited, source: Instr, target: Instr) -> Result<Cut, AllocError>
    requires reduced { audited.now.which ≡ Reduced }
    requires least { IsLeastIn audited.now.recording }
    requires edge { HasEdge Reduced audited.now.recording source target }
    ensures both { IsOkAnd result (IsOpenCut Reduced audited.now.recording source target) }
    ensures first { IsOkAnd result (λ cut. (other : Cut) →
        IsOpenCut Reduced audited.now.recording source target other → IsContained cut other) }
{
    // The audit passed, so the log suffices.
    let _ = audited.recording();
    let _ = audited.outcome();
    let least = cut_with(audited, target)?;
    let greatest = cut_without(audited, source)?;
    Ok(intersection(&least, &greatest))
}
