//! What clocks at edge ends show of a log.
ghost use Rattle.clock_entries.specs.Laws.{LastEntryLaw, EveryClockLaw, NextClockLaw, ExactIsGoodLaw, GoodIsAtLeastLaw};
ghost use Rattle.clock_entries.specs.Laws.{NeededLaw, ImpliedLaw, NeededOrKnownLaw, GoodShowsLeastLaw};
ghost use Rattle.clock_entries.specs.Laws.{LeastIsNeededLaw, AmissLaw};
ghost use Rattle.clock_entries.specs.Tests.{ExactPassesLaw, GoodTest, NeededTest, NextExactLaw};

/// Clocks kept at edge ends give each instruction its last entry; where they are exact, that is its
/// clock but for its own place, and the next clock of a core is merged of last entries.
pub fn entries_are_enough()
    ensures last { LastEntryLaw }
    ensures every { EveryClockLaw }
    ensures next { NextClockLaw }
{}

/// Exact entries are good, and good ones are nowhere below them.
pub fn good_entries()
    ensures exact { ExactIsGoodLaw }
    ensures least { GoodIsAtLeastLaw }
{}

/// Which edges the others imply: by good entries none that is needed, by exact ones just those that
/// are not.
pub fn implied_edges()
    ensures needed { NeededLaw }
    ensures implied { ImpliedLaw }
    ensures either { NeededOrKnownLaw }
{}

/// What a certificate shows: a sufficient log of conflicts is least where good entries show each edge
/// needed, and exact entries show it where the log is least.
pub fn certificates_show_least()
    ensures shown { GoodShowsLeastLaw }
    ensures shows { LeastIsNeededLaw }
    ensures amiss { AmissLaw }
{}

/// Which entries are good, and which edges are needed, can be tested by computing. So can exact entries be,
/// where the log has an order: exact ones pass, and one that passes is exact where those that lead to it are.
pub fn entry_tests()
    ensures good { GoodTest }
    ensures needed { NeededTest }
    ensures passes { ExactPassesLaw }
    ensures next { NextExactLaw }
{}
