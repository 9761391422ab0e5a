//! What certificates show.
ghost use Rattle.min_certificate.specs.Answers.{LeastIsCertifiedLaw, PassedIsAcceptedLaw};
ghost use Rattle.min_certificate.specs.Laws.{AmissByEntriesLaw, AnyOrderIsLeastLaw, EveryOrderIsLeastLaw, ExactFitsLaw};
ghost use Rattle.min_certificate.specs.Laws.{LeastPassesLaw, NotLeastLaw, PassedIsLeastLaw};
ghost use Rattle.min_certificate.specs.Tests.{ExactInTest, GoodInTest, NeededInTest};

/// A certificate that passes shows that the reduced log is least, and one with exact entries passes where
/// it is.
pub fn certificates()
    ensures passed { PassedIsLeastLaw }
    ensures passes { LeastPassesLaw }
{}

/// A log that is least for the accesses of one whole replay order is least for those of every other.
pub fn least_in_every_order()
    ensures every { EveryOrderIsLeastLaw }
    ensures any { AnyOrderIsLeastLaw }
{}

/// When a reduced log isn't least, and that exact entries decide it.
pub fn not_least()
    ensures amiss { NotLeastLaw }
    ensures entries { AmissByEntriesLaw }
{}

/// Exact entries can be spelled, least logs are certified, and what passes is accepted, unless memory runs
/// out.
pub fn certified_is_accepted()
    ensures fits { ExactFitsLaw }
    ensures certified { LeastIsCertifiedLaw }
    ensures accepted { PassedIsAcceptedLaw }
{}

/// Which entries of a certificate are good, and which edges they show needed, can be tested by computing, and
/// whether the entries are exact, where the recording is determinate.
pub fn certificate_tests()
    ensures good { GoodInTest }
    ensures needed { NeededInTest }
    ensures exact { ExactInTest }
{}
