//! What moves come to, and what they do to each other.
ghost use Rattle.cut_moves.specs.Rounds.{RoundsEndLaw, RoundsOrderedLaw, RoundsWholeLaw};
ghost use Rattle.cut_moves.specs.Steps.{BackAgainLaw, BackByIntersectionLaw, BackContainsLaw, BackCountLaw};
ghost use Rattle.cut_moves.specs.Steps.{OneStepBackLaw, OneStepLaw, OrderCutLaw, StepAgainLaw, StepByUnionLaw};
ghost use Rattle.cut_moves.specs.Steps.{StepContainedLaw, StepCountLaw};
ghost use Rattle.cut_moves.specs.Unions.{IntersectionClosedLaw, IntersectionGreatestLaw, UnionClosedLaw};
ghost use Rattle.cut_moves.specs.Unions.{UnionLeastLaw};
ghost use Rattle.cut_moves.specs.Ways.{WayCountsLaw, WayOrderedLaw};

/// The union of two closed cuts is closed, and the least cut that contains both; their intersection is closed,
/// and the greatest that both contain.
pub fn closed_cuts_are_a_lattice()
    ensures union { UnionLeastLaw }
    ensures union_closed { UnionClosedLaw }
    ensures intersection { IntersectionGreatestLaw }
    ensures intersection_closed { IntersectionClosedLaw }
{}

/// What a replay order has done is a closed cut.
pub fn orders_have_closed_cuts()
    ensures { OrderCutLaw }
{}

/// United with the least cut that holds an instruction a closed cut is a step, and there is one step. What it
/// has in common with the greatest cut that lacks one is a step back, and there is one.
pub fn one_step_each()
    ensures step { OneStepLaw }
    ensures back { OneStepBackLaw }
    ensures by_union { StepByUnionLaw }
    ensures by_intersection { BackByIntersectionLaw }
{}

/// Of a recording that is determinate by the log, a step holds no more of the core than the instruction that was
/// asked for, and a step back lacks no more of it.
pub fn the_core_moves_by_one()
    ensures step { StepCountLaw }
    ensures back { BackCountLaw }
{}

/// Back comes to a cut that contains the one from which the step came, and step to one within the cut from which
/// back came; once more changes nothing.
pub fn there_and_back()
    ensures back { BackContainsLaw }
    ensures step { StepContainedLaw }
    ensures step_again { StepAgainLaw }
    ensures back_again { BackAgainLaw }
{}

/// The timeline by rounds is a replay order, at whose end no core is ready; of a recording that is determinate by
/// the log it is whole.
pub fn rounds()
    ensures ordered { RoundsOrderedLaw }
    ensures end { RoundsEndLaw }
    ensures whole { RoundsWholeLaw }
{}

/// Along the way between two closed cuts each place's core is ready, from the lower cut on, and the way ends at
/// the higher one.
pub fn ways()
    ensures ordered { WayOrderedLaw }
    ensures counts { WayCountsLaw }
{}
