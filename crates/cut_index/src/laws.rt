//! What a core and a word depend on at a closed cut.
ghost use Rattle.cut_index.specs.AloneLaws.{AloneAtLaw, AloneLaw, GoesOnLaw, NextAtLaw};
ghost use Rattle.cut_index.specs.Words.{WordAtLaw};

/// Wherever a replay order has come, each core stands where its own instructions and its own loads have brought it. So
/// at a closed cut its state, and what its next instruction needs, depend on the cut's count of that core alone.
pub fn cores_stand_alone()
    ensures order { AloneLaw }
    ensures cut { AloneAtLaw }
    ensures next { NextAtLaw }
    ensures goes_on { GoesOnLaw }
{}

/// A word at a closed cut is what its last write in the cut left, in the low order.
pub fn words_are_left()
    ensures { WordAtLaw }
{}
