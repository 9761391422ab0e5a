//! What is told of a run.
ghost use Rattle.tso_outcome.specs.Outcomes.{ToldLoadsLaw};

/// At the end of a run what was told of each core's loads and atomic memory operations is what they read.
pub fn a_run_is_told_whole()
    ensures { ToldLoadsLaw }
{}
