//! What a machine whose riders record times stands for.
ghost use Rattle.std.specs.Prelude.{ℕ, []};
ghost use Rattle.access_times.specs.Times.{times_riding};
ghost use Rattle.image_mem.specs.Contents.{Contents};
ghost use Rattle.machine_times.specs.TimedSteps.{times_parts};
ghost use Rattle.tso_state.specs.States.{state_start};
ghost use Rattle.tso_times.specs.Absorbing.{MeetAlike};
ghost use Rattle.tso_times.specs.Timed.{FindsTimes, StandsAfter, TimedStep};

use access_times::Carry;

/// At the start the riders have the times of no access. Where the riders have the times of the accesses that were
/// ordered so far, a step after which the rider has the ordered access noted leaves them with the times of these and
/// its own; and the rider that an ordered access finds has the last write of its word, and for an access that writes
/// each core's last read since, each with its clock, and nothing else.
pub fn timed_steps<K: Carry>()
    ensures starts { (image : Contents) (cores limit : ℕ)
        → StandsAfter times_parts K.carrying [] (state_start times_riding K.carrying image cores limit) }
    ensures stands { TimedStep times_parts K.carrying }
    ensures finds { FindsTimes times_parts K.carrying }
{}

/// Where one rider absorbs another, both have the same last write of each word: absorbing never leaves a slot as it
/// was because the writes differ.
pub fn riders_meet_alike<K: Carry>()
    ensures { MeetAlike times_parts K.carrying }
{}
