//! What is exact along every run, and what its recording is, with no machine at hand.
ghost use Rattle.run_records.specs.Recorded.{LeastLogLaw, RecordedLaw, RecordsLaw, RegulatedLogLaw};
ghost use Rattle.run_records.specs.Exactness.{ExactClocksLaw, FoundTimesLaw, RetiredClockLaw};
ghost use Rattle.run_records.specs.WhatIsKnown.{KnownCountedLaw};

/// After each choice of a run, until its end, the recorder's machine and reduction stand where the run does, and
/// so does what is noted of its retirements, by which the reduction's edges have their vectors.
pub fn every_run_is_recorded()
    ensures { RecordsLaw }
{}

/// Along every run each core's clock is exact for the last instruction that it has retired, so the clock
/// that is noted at a retirement is exact, whether there was an access or none; and the times that the
/// clerk is handed at an access are exact for it.
pub fn clocks_and_times_are_exact()
    ensures clocks { ExactClocksLaw }
    ensures retired { RetiredClockLaw }
    ensures times { FoundTimesLaw }
{}

/// The recording of every run is valid, so its spelling is read back as it. Its reduced log is the least
/// set of the run's accesses, and each edge of it is a conflict that the others leave unordered. Its
/// regulated log has each pair's greedy vectors of these edges, by whatever counts what is known in the run.
pub fn every_recording_is_read_back_and_least()
    ensures recorded { RecordedLaw }
    ensures least { LeastLogLaw }
    ensures regulated { RegulatedLogLaw }
{}

/// What is noted in a run counts, at each of its instructions, exactly the instructions of other cores that
/// are known there.
pub fn the_notes_count_what_is_known()
    ensures { KnownCountedLaw }
{}
