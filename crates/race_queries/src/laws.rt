//! What the answers are determined by.
ghost use Rattle.race_queries.specs.Queries.{OneLastWriteLaw};

/// A cut of an audited recording has at most one last write of a word, whichever order of the run is looked at.
pub fn one_last_write()
    ensures { OneLastWriteLaw }
{}
