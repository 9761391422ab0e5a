//! What the run in which another core goes first is.
ghost use Rattle.what_if.specs.Laws.{CutFirstLaw, OtherPlaysLaw, TakenPlaysLaw};

/// What is left of an order if cores that can't go on are passed over plays, falls short nowhere, and comes to the
/// same.
pub fn taken_places_play()
    ensures { TakenPlaysLaw }
{}

/// Where the order has come to the cut, the state is the cut's.
pub fn the_cut_comes_first()
    ensures { CutFirstLaw }
{}

/// What the run comes to is the outcome of the play of an order that begins with the timeline as far as the cut, and
/// then with the core that goes first, if that core has an instruction of the recording to come.
pub fn other_ways_play()
    ensures { OtherPlaysLaw }
{}
