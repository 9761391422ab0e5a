//! What a retirement keeps.
ghost use Rattle.exact_reduction.specs.Reducing.{AccessReducesLaw, FoundExactLaw};

/// A reduction that stands for some retirements still stands for them once it was told of one more that
/// made an access, by the times that it finds.
pub fn a_retirement_keeps_it()
    ensures found { FoundExactLaw }
    ensures access { AccessReducesLaw }
{}
