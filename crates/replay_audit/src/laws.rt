//! What holds of every replay order of a recording that is determinate by its log.
ghost use Rattle.replay_audit.specs.Audits.{RefusedLaw};
ghost use Rattle.replay_audit.specs.Judges.{JudgeLaw};
ghost use Rattle.replay_audit.specs.Laws.{AccessesRiseLaw, AcyclicLaw, AnyWholeLaw, EveryOrderLaw, EveryValuedLaw};
ghost use Rattle.replay_audit.specs.Laws.{NeverBothLaw, NeverDueLaw, OneAccessLaw, OneLoadLaw, RecordedLogLaw};
ghost use Rattle.replay_audit.specs.Laws.{ReplayFitsLaw, SettledLaw};

/// A recording's edges lead between instructions of different cores, and where the log has a whole replay
/// order it doesn't go round. The counts of a replay order's accesses rise.
pub fn logs_of_recordings()
    ensures log { RecordedLogLaw }
    ensures acyclic { AcyclicLaw }
    ensures rise { AccessesRiseLaw }
{}

/// Every replay order's play has the plan's cores and memory, and its loads are of words of that memory.
pub fn replays_fit_their_plan()
    ensures { ReplayFitsLaw }
{}

/// Where some whole order decides, every replay order plays, has the accesses of that order, and goes on
/// until it is whole and ends in the same outcome. So it is too where loads are given values, the same by
/// each order.
pub fn every_order_agrees()
    ensures agrees { EveryOrderLaw }
    ensures valued { EveryValuedLaw }
    ensures one_access { OneAccessLaw }
    ensures one_load { OneLoadLaw }
{}

/// Two cores' next accesses that conflict are never both ready, nor are they due where each core is ahead
/// by local instructions.
pub fn never_both()
    ensures ready { NeverBothLaw }
    ensures due { NeverDueLaw }
{}

/// Any whole replay order may take the low order's part.
pub fn any_whole_order_decides()
    ensures { AnyWholeLaw }
{}

/// A recording is determinate exactly where the log orders each two accesses that conflict of any whole
/// replay order that plays, the one way or the other.
pub fn settled_is_determinate()
    ensures { SettledLaw }
{}

/// What an audit refuses for another reason than want of memory isn't determinate.
pub fn refused_is_not_determinate()
    ensures { RefusedLaw }
{}

/// The accesses of any whole replay order that plays, without their values and in any order, decide whether
/// a recording is determinate.
pub fn any_accesses_decide()
    ensures { JudgeLaw }
{}
