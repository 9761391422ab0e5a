//! What the lists hold.
ghost use Rattle.least_lists.specs.LeastLists.{LeastListsLaw, LeastLogLaw, ReducedListsLaw};

/// They hold exactly the covering pairs: the conflicts between which no other access stands. These are the
/// least set, so a recording with these lists has the least set as its reduced log.
pub fn lists_are_least()
    ensures lists { LeastListsLaw }
    ensures log { LeastLogLaw }
{}

/// A reduction that was told of the accesses has these lists.
pub fn reductions_have_the_lists()
    ensures { ReducedListsLaw }
{}
