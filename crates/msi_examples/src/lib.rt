//! Small runs of the machine, worked out by hand, that its definitions are proved to give. Each is computed from the
//! definitions of state, moves and step alone.
//!
//! Proved: the definitions of the machine give twelve worked runs: stops, retired counts, registers, changed words and
//! loads, and of two of them each of sixteen steps. These were worked out by hand; the numbers of steps of most runs
//! were not.
#![tactic(auto)]

ghost use Rattle.msi_examples.specs.Examples.{OneHandsOver, HandedOver, ShareFalsely, StoreBytes, SumInTurn};
ghost use Rattle.msi_examples.specs.Examples.{BothBlocksAreHeld, ChoiceDecides, LimitReached, PutIsStalled};
ghost use Rattle.msi_examples.specs.Examples.{ReadEightApart};

/// A word goes from core 0 to core 1 and back: what each of sixteen choices does, and what the run
/// leaves.
pub fn a_word_is_handed_over()
    ensures steps { OneHandsOver }
    ensures left { HandedOver }
{}

/// Two cores use words of their own in one block, and bytes of their own in one word. The second of
/// these runs takes exactly twelve steps.
pub fn a_block_and_a_word_are_shared()
    ensures block { ShareFalsely }
    ensures word { StoreBytes }
{}

/// Two cores add to one word by an atomic memory operation.
pub fn a_word_is_added_to()
    ensures { SumInTurn }
{}

/// Two stores to one word, of which one choice decides the last; and a read by the first writer between
/// two writes.
pub fn a_choice_decides()
    ensures { ChoiceDecides }
{}

/// A Put is stalled: at a shared copy while Inv arrives, and at an owned one while Fwd-GetS or Fwd-GetM
/// arrives.
pub fn a_put_is_stalled()
    ensures { PutIsStalled }
{}

/// Two cores read words of two blocks whose numbers differ by 8, and then the first again: neither block is taken
/// back for the other, so each run of a core takes eight steps.
pub fn blocks_stay_beside_each_other()
    ensures steps { BothBlocksAreHeld }
    ensures left { ReadEightApart }
{}

/// A core is stopped at its limit, unless its ECALL retires there.
pub fn a_limit_is_reached()
    ensures { LimitReached }
{}
