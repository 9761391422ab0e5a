//! What is told is determined, and of a size.
ghost use Rattle.std.specs.Prelude.{◌≡◌};
ghost use Rattle.race_answers.specs.Asking.{chain_max};
ghost use Rattle.race_answers.specs.Pcs.{OnePcLaw};

use crate::waits_told::CHAIN_MAX;

/// An instruction of a recording that is determinate by the log has one pc, whichever closed cut is looked at.
pub fn one_pc()
    ensures { OnePcLaw }
{}

/// How many edges a chain that is told has at most, as a number.
pub fn sizes_law()
    ensures { CHAIN_MAX ≡ chain_max }
{}
