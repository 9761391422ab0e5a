//! What the carries of a machine hold.
ghost use Rattle.machine_known.specs.Histories.{KnowsStartLaw, KnowsStepLaw};
ghost use Rattle.machine_known.specs.Known.{CarriesFollowLaw, CarryToldLaw, KnownRunLaw, KnownStartLaw, KnownStepLaw};
ghost use Rattle.machine_known.specs.Known.{RunEarlierLaw, RunKnowsLaw, RunLaws};

use access_times::{Carry, Rider};

/// Whatever rides, where each core has a port: the actor of a move joins its carry with that of the message
/// that it takes, and then changes it by the instruction that retires; each message that it sends has a copy of
/// the carry that it has after all else; no other carry changes. What retires is told with the carry that its
/// core then has.
pub fn carries_follow<R: Rider, K: Carry>()
    ensures follow { CarriesFollowLaw R.riding K.carrying }
    ensures told { CarryToldLaw R.riding K.carrying }
{}

/// In each run each core's instructions retire one after the other, in its own events, which are those in
/// which the clerk is told of them. Each link holds as many messages as events have sent to it and not yet
/// taken.
pub fn runs_are_orderly()
    ensures { RunLaws }
{}

/// In a machine at its start each core has a port, and nothing is carried. Where each core has a port and the
/// carries count what reached them, so it is after each move, whatever rider the clerk leaves, and what retires
/// in the move is told with a carry that counts exactly what is known at it.
pub fn every_step_counts_what_is_known<R: Rider>()
    ensures start { KnownStartLaw R.riding }
    ensures step { KnownStepLaw R.riding }
{}

/// So in each step of each run, whatever riders clerks leave: what retires is told with a carry that counts
/// exactly what is known at it.
pub fn runs_count_what_is_known<R: Rider>()
    ensures carries { RunKnowsLaw R.riding }
    ensures told { KnownRunLaw R.riding }
{}

/// A history in which each retirement is noted with the carry that the clerk is told of holds what is known at
/// it: at the start, and after each move.
pub fn a_run_is_noted<R: Rider>()
    ensures start { KnowsStartLaw R.riding }
    ensures step { KnowsStepLaw R.riding }
{}

/// What is known at an instruction retired earlier in the run.
pub fn what_is_known_retired_earlier()
    ensures { RunEarlierLaw }
{}
