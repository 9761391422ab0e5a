//! What each step earns, and what follows from it of the end of a run.
ghost use Rattle.std.specs.Prelude.{◌<◌, ◌≤◌, IsTrue, length};
ghost use Rattle.std.specs.List.{sum_by};
ghost use Rattle.access_times.specs.Riding.{none_riding};
ghost use Rattle.machine_bound.specs.Ends.{EndsInTime, end_of, most_steps};
ghost use Rattle.machine_invariant.specs.Holds.{MachineHolds};
ghost use Rattle.machine_bound.specs.Bound.{Earns, capacity, left, total_earned, total_retired};
ghost use Rattle.msi_state.specs.Runs.{IsRunEnd, run};
ghost use Rattle.msi_state.specs.States.{State};
ghost use Rattle.msi_state.specs.Steps.{enabled, step};
ghost use Rattle.msi_state.specs.declared.moves.Move.{Move};

use access_times::{Carry, Rider};

/// Each enabled move of a state that has the invariant pays for its own step, whatever rider the clerk leaves: what the
/// cores have earned rises by more than what is owed. Fewer steps are left after it, and no state has
/// earned more than its cores' instructions can pay for. So a loop that steps the machine until each
/// program is done has `left` as its measure.
pub fn every_step_earns<R: Rider, K: Carry>()
    ensures earns { (s : State R K) (move : Move) (rider : R) → IsTrue (enabled R.riding K.carrying s move)
        → MachineHolds R.riding K.carrying s → Earns R.riding s (step R.riding K.carrying rider s move) }
    ensures nearer { (s : State R K) (move : Move) (rider : R) → IsTrue (enabled R.riding K.carrying s move)
        → MachineHolds R.riding K.carrying s
        → left R.riding (step R.riding K.carrying rider s move) < left R.riding s }
    ensures within { (s : State R K) → MachineHolds R.riding K.carrying s
        → total_earned R.riding s ≤ sum_by (capacity (length s.cores)) s.cores }
{}

/// Each run ends, whatever its image and its choices are, and has one end. It takes at most 2 P + 4 steps
/// for each instruction that retires in it, P the number of cores, and so at most `most_steps`, which fits
/// a word where the parameters lie in their ranges. At each moment up to the end, at most `left` of these
/// steps are still to come.
pub fn a_run_ends_in_time()
    ensures { EndsInTime run IsRunEnd end_of most_steps 4 total_retired (left none_riding) }
{}
