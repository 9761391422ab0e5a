//! What holds of the edges of a least log.
ghost use Rattle.race_cuts.specs.BackSteps.{BackIsOpenLaw, FirstOpenLaw};
ghost use Rattle.race_cuts.specs.Clashes.{ClashAtLaw, ClashNextLaw};
ghost use Rattle.race_cuts.specs.OpenCuts.{GreatestIsOpenLaw, LastOpenLaw, OpenCutLaw, OpenEdgesAreLeastLaw};
ghost use Rattle.race_cuts.specs.OpenCuts.{ReadyWhereOpenLaw};

/// Each edge of a least log has a closed cut at which both its instructions come next: the greatest one without its
/// source, which holds all others. A log of conflicts that suffices is least exactly if each edge has one. There the
/// source's core is ready, and behind its instruction the target's.
pub fn open_edges()
    ensures greatest { GreatestIsOpenLaw }
    ensures some { OpenCutLaw }
    ensures last { LastOpenLaw }
    ensures least { OpenEdgesAreLeastLaw }
    ensures ready { ReadyWhereOpenLaw }
{}

/// If both instructions of an edge come next, the next accesses of their cores conflict.
pub fn clashes()
    ensures order { ClashNextLaw }
    ensures state { ClashAtLaw }
{}

/// From wherever the target is done one step back over the source comes to such a cut. From the least cut with the
/// target it comes to the first of them.
pub fn steps_to_open_cuts()
    ensures back { BackIsOpenLaw }
    ensures first { FirstOpenLaw }
{}
