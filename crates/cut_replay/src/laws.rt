//! What an instruction's two cuts and a cut's state are determined by.
ghost use Rattle.cut_replay.specs.ClosedCuts.{OneGreatestCutLaw, OneLeastCutLaw};
ghost use Rattle.cut_replay.specs.CutStates.{OneStateLaw};

/// A recording, a log and an instruction have one least cut with the instruction, and one greatest cut
/// without it.
pub fn one_cut_each()
    ensures least { OneLeastCutLaw }
    ensures greatest { OneGreatestCutLaw }
{}

/// A cut stands for one state.
pub fn one_state()
    ensures { OneStateLaw }
{}
