//! What the recording of a run is, under choices and under a schedule, and what its replays answer.
ghost use Rattle.tso_recordings.specs.Follows.{ReplayedLaw};
ghost use Rattle.tso_recordings.specs.Logged.{LoggedLaw};
ghost use Rattle.tso_recordings.specs.RunLaws.{RecordingLaws, RunReplaysLaw};
ghost use Rattle.tso_recordings.specs.Schedules.{HeldLaw};
ghost use Rattle.tso_recordings.specs.Plays.{InOrderLaw, PlayedLaw};
ghost use Rattle.tso_recordings.specs.Replays.{LeastReplaysLaw};
ghost use Rattle.tso_recordings.specs.Tells.{ToldPlaysLaw};

/// The recording of a run is valid. Its reduced log is the least set of the accesses that the run ordered, which the
/// reduction comes to that is told of the run. What was told plays with the recorded words to the run's outcome.
pub fn every_run_is_recorded()
    ensures { RecordingLaws }
{}

/// Every replay order of it agrees with the order in which the run told its instructions: it plays by accesses of that
/// order's play and gives each core the first of its loads, each with its word; to one that isn't whole a core can be
/// added, and a whole one ends with the run's cores, memory and loads. So a replay of the recording answers the run's
/// outcome, or refuses for want of memory alone.
pub fn every_order_replays_the_run()
    ensures { RunReplaysLaw }
{}

/// For every image, parameters and schedule: the recording of the run is valid, and its reduced log is the least set of
/// the accesses that the run ordered.
pub fn every_schedule_is_recorded()
    ensures { HeldLaw }
{}

/// The values of the recording are the loads that the run logs, by core: each load that leaves its core's queue where
/// the core's port can't read its word, or where the word differs from the value that the load got, and no other; each
/// with its count and that value.
pub fn the_values_are_the_logged_loads()
    ensures { LoggedLaw }
{}

/// Every replay order of the recording follows the run: it plays by the run's accesses, of which the log orders each two
/// that conflict as the run did; it gives each core the first of the run's loads and atomic memory operations, each with
/// its word; and it goes on until it is whole, where it ends with the run's cores, memory and loads. So a replay of the
/// recording answers the run's outcome, or is refused for want of memory alone.
pub fn every_order_follows_the_run()
    ensures { ReplayedLaw }
{}

/// Instructions that are told one after the other, each with what its core does at that place, are a play by the
/// accesses that are ordered and with the words of the logged loads.
pub fn what_is_told_plays()
    ensures { ToldPlaysLaw }
{}

/// What is told of cores, each instruction as its core's next one, is in program order.
pub fn what_is_told_is_in_order()
    ensures { InOrderLaw }
{}

/// And it is a play, where each ordered access finds the last value of its word and each logged load is given its own:
/// a play that comes to the cores that were told, and to the memory that the ordered accesses leave.
pub fn what_is_told_is_a_play()
    ensures { PlayedLaw }
{}

/// Every replay order of a recording replays what was told, where the reduced log is the least set of the accesses that
/// were ordered.
pub fn the_least_log_replays()
    ensures { LeastReplaysLaw }
{}
