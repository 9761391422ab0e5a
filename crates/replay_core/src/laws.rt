//! What holds of every replay order and play, so that the layers above go on from list to longer list.
ghost use Rattle.replay_core.specs.Laws.{CountsOnLaw, PlayOnLaw, AccessesOnLaw, PlaysOnLaw, OrderedOnLaw, SourcedLaw};
ghost use Rattle.replay_core.specs.Laws.{ReadyTestLaw, PlacesLaw, OneMoreLaw, LowOrderLaw, LowestOrderedLaw};
ghost use Rattle.replay_core.specs.Laws.{LowOrderedLaw, LowestStuckLaw, LowFrontLaw, LowEndLaw, PlayStartLaw, PlaceLaw};
ghost use Rattle.replay_core.specs.Laws.{PlayLaw, ShortLaw, CountsMoreLaw, PlaceOfLaw, OnePlaceLaw, ByImageLaw};
ghost use Rattle.replay_core.specs.Laws.{SameStartLaw};

/// Where in a list a core reaches a count.
pub fn places_of_counts()
    ensures more { CountsMoreLaw }
    ensures place { PlaceOfLaw }
    ensures one { OnePlaceLaw }
{}

/// What a list does to counts, outcomes and accesses, one does that goes on from it: with one place, what
/// one more place at the end does.
pub fn lists_go_on()
    ensures counts { CountsOnLaw }
    ensures play { PlayOnLaw }
    ensures accesses { AccessesOnLaw }
    ensures plays { PlaysOnLaw }
    ensures ordered { OrderedOnLaw }
{}

/// Which lists are replay orders, and which core can be added to one.
pub fn replay_orders()
    ensures sourced { SourcedLaw }
    ensures test { ReadyTestLaw }
    ensures places { PlacesLaw }
    ensures one_more { OneMoreLaw }
{}

/// The low order has at each place the lowest-numbered core that is ready, and ends where none is, so it is
/// a replay order; each list that does so far is its front.
pub fn low_order_is_lowest()
    ensures lowest { LowOrderLaw }
    ensures each_ordered { LowestOrderedLaw }
    ensures ordered { LowOrderedLaw }
    ensures stuck { LowestStuckLaw }
    ensures front { LowFrontLaw }
    ensures end { LowEndLaw }
{}

/// What is known before the first place, after a place, and after the places of a replay order.
pub fn plays_are_known()
    ensures start { PlayStartLaw }
    ensures place { PlaceLaw }
    ensures play { PlayLaw }
    ensures short { ShortLaw }
{}

/// A play goes by the image alone, and what it begins with by the image, the limit and the number of cores:
/// the log that a replay order obeys changes neither.
pub fn plays_go_by_the_image()
    ensures play { ByImageLaw }
    ensures start { SameStartLaw }
{}
