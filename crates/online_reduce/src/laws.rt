//! What the online reduction keeps while the times handed in are exact.
ghost use Rattle.std.specs.Prelude.{◌≡◌};
ghost use Rattle.online_reduce.specs.declared.edge_places.TheConstants.{EDGES_ROOM};
ghost use Rattle.online_reduce.specs.Exact.{BeginLaw, CountLaw, ExactForLaw, LeastLaw, ListedLaw, RetireLaw};
ghost use Rattle.online_reduce.specs.Reduced.{OtherClocksLaw};
ghost use Rattle.online_reduce.specs.Sizes.{edges_room};

/// How many edges an `EdgeList` has room for in the value itself, as a number.
pub fn sizes_law()
    ensures { EDGES_ROOM ≡ edges_room }
{}

/// A retirement changes the clock of its core alone.
pub fn other_clocks_law()
    ensures { OtherClocksLaw }
{}

/// Times that are exact for a word are exact for each access to it.
pub fn exact_for_law()
    ensures { ExactForLaw }
{}

/// Before the first retirement there are no edges.
pub fn begin_law()
    ensures { BeginLaw }
{}

/// A retirement without an access adds nothing.
pub fn count_law()
    ensures { CountLaw }
{}

/// A retirement with an access adds the covering pairs into it, where the times are exact for it.
pub fn retire_law()
    ensures { RetireLaw }
{}

/// The edges are the least set of the list.
pub fn least_law()
    ensures { LeastLaw }
{}

/// They are exactly the counts in their pairs' lists.
pub fn listed_law()
    ensures { ListedLaw }
{}
