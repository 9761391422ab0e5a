//! What thinning leaves, and that readings and spellings of it are the same.
ghost use Rattle.vector_reduce.specs.BadParts.{BadPart};
ghost use Rattle.vector_reduce.specs.Cuts.{ClosedHoldsLaw, CutShowsLaw};
ghost use Rattle.vector_reduce.specs.Laws.{NeededStaysLaw, OneThinningLaw, PrefixFree, ReadIsSpelled, SameOrdersLaw};
ghost use Rattle.vector_reduce.specs.Laws.{ShownIsNeededLaw, SpelledIsRead, ThinnedIsNeededLaw, ThinnedIsSameLaw};
ghost use Rattle.vector_reduce.specs.Vectors.{VectorsAreTheLog};

/// What leads to an instruction of a closed cut lies in it. So a closed cut that has an edge's target and not its
/// source shows that no path of the edges leads from the source to the target.
pub fn closed_cuts()
    ensures holds { ClosedHoldsLaw }
    ensures shows { CutShowsLaw }
{}

/// A recording's vectors have the edges of its regulated log. Their one thinning has the same before, and each
/// vector of it is needed; where each is needed, none is left out. What is shown to be needed is.
pub fn thinned_vectors()
    ensures log { VectorsAreTheLog }
    ensures same { ThinnedIsSameLaw }
    ensures needed { ThinnedIsNeededLaw }
    ensures one { OneThinningLaw }
    ensures stays { NeededStaysLaw }
    ensures shown { ShownIsNeededLaw }
{}

/// Two recordings that differ in their regulated logs alone, by which the same is before, have the same replay
/// orders by them.
pub fn same_replay_orders()
    ensures { SameOrdersLaw }
{}

/// What is read is in form and spelled so, and what is spelled is read. No spelling begins another.
pub fn thinned_spellings()
    ensures read { ReadIsSpelled }
    ensures spelled { SpelledIsRead }
    ensures prefix { PrefixFree }
{}

/// A refusal of bytes as a thinned recording names part k, from 1 to 7, exactly where the parts below k are spelled
/// by a front of the bytes, in version 2, and no valid part k follows there. Parts 1 to 5 are a recording's, part 6
/// shows the vectors needed, and part 7 is the end, where no byte stands.
pub fn bad_part_law()
    ensures { BadPart }
{}
