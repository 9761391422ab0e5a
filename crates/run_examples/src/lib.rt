//! The worked run of a handed over word, as a play: its order of retirement is played over one flat memory. Each value
//! is computed from the definitions alone.
//!
//! Proved: the order of retirement of the worked run, played, gives its outcome (`a_handed_over_word_is_played`,
//! clauses `order` and `play`).
#![tactic(auto)]

ghost use Rattle.run_examples.specs.HandingOver.{HandedOverByPlay, HandedOverInOrder};

/// A word goes from core 0 to core 1 and back: the order in which the instructions of the run retired, and
/// what its play makes of the accesses, the loads, the memory and the cores, which are the run's.
pub fn a_handed_over_word_is_played()
    ensures order { HandedOverInOrder }
    ensures play { HandedOverByPlay }
{}
