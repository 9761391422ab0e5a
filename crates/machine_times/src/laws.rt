//! What a machine whose riders record times stands for.
ghost use Rattle.std.specs.Prelude.{ℕ, []};
ghost use Rattle.access_times.specs.Times.{times_riding};
ghost use Rattle.image_mem.specs.Contents.{Contents};
ghost use Rattle.msi_state.specs.States.{state_start};
ghost use Rattle.machine_times.specs.Absorbing.{MeetAlike};
ghost use Rattle.machine_times.specs.ExactTimes.{ExactTimesLaw, OrderedLaw};
ghost use Rattle.machine_times.specs.Retirements.{MachineStandsFor};
ghost use Rattle.machine_times.specs.TimedRuns.{TimedRunLaw};
ghost use Rattle.machine_times.specs.TimedSteps.{ClocksTold, FindsTimes, TimedStep, TimedTold, times_parts};

use access_times::{Carry, TimesClerk};

/// A new machine stands for the empty list. Where a machine stands for the retirements so far, a step
/// after which the rider has the retired access noted leaves it standing for these with the step's
/// own; and the rider that an access finds has the last write of its word, and for an access that
/// writes each core's last read since, each with its clock, and nothing else.
pub fn timed_steps<K: Carry>()
    ensures starts { (image : Contents) (cores limit : ℕ)
        → MachineStandsFor times_parts K.carrying [] (state_start times_riding K.carrying image cores limit) }
    ensures stands { TimedStep times_parts K.carrying }
    ensures finds { FindsTimes times_parts K.carrying }
{}

/// The same where a clerk that notes with its clocks is told of the step: what retired is appended
/// with the clock that the clerk then holds for its core. A clerk that holds the clocks that were last
/// noted, zero where none was, does so after each step.
pub fn timed_tellings<K: Carry, C: TimesClerk<K>>()
    ensures stands { TimedTold C.told_local C.told_touch C.clock K.carrying }
    ensures clocks { ClocksTold C.told_local C.told_touch C.clock }
{}

/// So each state of each run of a machine with times stands for its retirements, each access finds exact
/// times by them, and riders that meet have the same last writes, whatever clocks are noted.
pub fn runs_are_timely<K: Carry>()
    ensures { TimedRunLaw K.carrying }
{}

/// Where one rider absorbs another, both have the same last write of each word: absorbing
/// never leaves a slot as it was because the writes differ.
pub fn riders_meet_alike<K: Carry>()
    ensures { MeetAlike times_parts K.carrying }
{}

/// Where the clocks of a list of retirements are exact, what an access finds by that list is exact: the
/// last write, and for an access that writes each core's last read since.
pub fn noted_times_are_exact()
    ensures { ExactTimesLaw }
{}

/// The accesses of the retirements that a machine stands for have rising counts for each core.
pub fn accesses_are_ordered()
    ensures { OrderedLaw }
{}
