//! What the least set and the clocks of a list of accesses are.
ghost use Rattle.std.specs.Prelude.{◌≡◌};
ghost use Rattle.conflict_edge.specs.declared.TheConstants.{ACCESSES_MAX};
ghost use Rattle.conflict_edge.specs.Clocks.{CandidatesLaw, ClockLaw, KeptClockLaw, OnlineClockLaw, OnlineLaw};
ghost use Rattle.conflict_edge.specs.Least.{CoveringLaw, IndependentLaw, OneLeastLaw, SourceLaw};
ghost use Rattle.conflict_edge.specs.Sizes.{accesses_max};
ghost use Rattle.conflict_edge.specs.Times.{TimesLaw};

/// How many accesses `least_of` takes at most, as a number.
pub fn sizes_law()
    ensures { ACCESSES_MAX ≡ accesses_max }
{}

/// The least set is exactly the covering pairs: the conflict pairs with nothing strictly between.
pub fn covering_law()
    ensures { CoveringLaw }
{}

/// A sufficient set of conflict pairs is least exactly where none of it is implied by the others.
pub fn independent_law()
    ensures { IndependentLaw }
{}

/// A list of accesses has at most one least set.
pub fn one_least_law()
    ensures { OneLeastLaw }
{}

/// An access has at most one covering source on each core.
pub fn source_law()
    ensures { SourceLaw }
{}

/// The clock, which is a recursion over the accesses, is reachability.
pub fn clock_law()
    ensures { ClockLaw }
{}

/// An access leaves the clocks of what came before it as they were.
pub fn kept_clock_law()
    ensures { KeptClockLaw }
{}

/// The online rule keeps exactly the covering pairs into the access that comes next.
pub fn online_law()
    ensures { OnlineLaw }
{}

/// The clock that the online rule makes is exact.
pub fn online_clock_law()
    ensures { OnlineClockLaw }
{}

/// Edges that put each candidate before the access that comes next put each access that conflicts
/// with it before it.
pub fn candidates_law()
    ensures { CandidatesLaw }
{}

/// The exact times of a word give the candidates of an access to it.
pub fn times_law()
    ensures { TimesLaw }
{}
