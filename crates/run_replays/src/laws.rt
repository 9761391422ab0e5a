//! What the play of a run's order of retirement comes to, which logs this order obeys, and what replays of
//! the run's recording come to, by whichever order that obeys the log.
ghost use Rattle.run_replays.specs.BothLogs.{BothReplayLaw, RunRegulatedLaw};
ghost use Rattle.run_replays.specs.Deciding.{ReducedDecidesLaw, RunDecidesLaw};
ghost use Rattle.run_replays.specs.Loads.{OutcomeLoadsLaw, PlayLoadsLaw};
ghost use Rattle.run_replays.specs.Plays.{OfRunLaw, RunIsPlayLaw};
ghost use Rattle.run_replays.specs.ReplayOrders.{ConflictsForwardLaw, ForwardLaw, ReducedForwardLaw, ReducedOrderLaw};
ghost use Rattle.run_replays.specs.Replays.{ReducedReplaysLaw, RunReplaysLaw};

/// The order in which the instructions of a run retired is whole, and its play, over one flat memory and
/// by any log of a recording of the run, is the run: it falls short nowhere, makes the run's accesses,
/// each with its values, and comes to its cores, its final memory and its loads.
pub fn a_run_is_a_play()
    ensures { RunIsPlayLaw }
{}

/// What the recorder makes of a run is a recording of it.
pub fn the_recording_is_of_the_run()
    ensures { OfRunLaw }
{}

/// The order of retirement is a replay order of each log whose edges go forward in it. Conflicts do, and
/// so do the edges of the reduced log, of which it is a replay order.
pub fn retirement_is_a_replay_order()
    ensures forward { ForwardLaw }
    ensures conflicts { ConflictsForwardLaw }
    ensures edges { ReducedForwardLaw }
    ensures reduced { ReducedOrderLaw }
{}

/// The loads of a run's outcome are those of its accesses, core by core, and the loads of any play are
/// those of the play's accesses.
pub fn loads_are_those_of_the_accesses()
    ensures outcome { OutcomeLoadsLaw }
    ensures play { PlayLoadsLaw }
{}

/// The order of retirement decides by the reduced log, and by each log whose edges go forward in it and
/// imply the reduced log's: it is a whole replay order that plays, and its conflicts are before by the
/// log.
pub fn retirement_decides()
    ensures implied { RunDecidesLaw }
    ensures reduced { ReducedDecidesLaw }
{}

/// Where the order of retirement decides by a log of a recording of the run, every replay order of the
/// log, whole or not, plays by accesses of the run and gives each core the first of the run's loads; a
/// whole one ends in the run's outcome, and to any other a core can be added. So a replay of the
/// recording gives the run's outcome, an audit passes with it, and neither refuses for another reason
/// than want of memory. By the reduced log it decides.
pub fn every_order_replays_the_run()
    ensures replays { RunReplaysLaw }
    ensures reduced { ReducedReplaysLaw }
{}

/// Of what a run records, either log replays the run: every order that obeys it plays by accesses of the
/// run, gives each core the first of the run's loads, and is whole or can go on; a whole one ends in the
/// run's outcome.
pub fn both_logs_replay_the_run()
    ensures { BothReplayLaw }
{}

/// Each edge of the regulated log goes from an instruction to one that retired later, each reduced edge is
/// before by it, and no pair of cores has more vectors than reduced edges.
pub fn the_regulated_log_covers_the_run()
    ensures { RunRegulatedLaw }
{}
