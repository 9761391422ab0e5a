//! What is exact along every run.
ghost use Rattle.tso_records.specs.Records.{FoundTimesLaw, LeastEdgesLaw, NextToldLaw, ReductionLaw};

/// The times that each ordered access of a run finds are exact for it among the accesses that were ordered before.
pub fn times_are_exact()
    ensures { FoundTimesLaw }
{}

/// So after each choice of a run the reduction has the least set of the accesses that were ordered so far, and stands
/// for what was told: each core's count is that of what was told of it, and its clock is exact.
pub fn the_edges_are_least()
    ensures least { LeastEdgesLaw }
    ensures reduction { ReductionLaw }
{}

/// What is told in each move of a run is, one instruction after the other, what the reduction awaits: each is of one of
/// its cores, and has the count behind that of the last instruction that it was told of that core.
pub fn what_is_told_is_awaited()
    ensures { NextToldLaw }
{}
