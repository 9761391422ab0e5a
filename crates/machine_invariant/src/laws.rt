//! What each state of a run keeps, and what follows from it.
ghost use Rattle.access_times.specs.Riding.{none_carrying, none_riding};
ghost use Rattle.machine_invariant.specs.Holds.{MachineHolds};
ghost use Rattle.machine_invariant.specs.Promises.{EachRunHas, IsInvariant, MovesOn};
ghost use Rattle.msi_state.specs.Runs.{run};
ghost use Rattle.msi_state.specs.States.{state_start, all_done};
ghost use Rattle.msi_state.specs.Steps.{acts, enabled, step, moves};
ghost use Rattle.msi_state.specs.Rests.{HasRoomFor, has_row_for};

use access_times::{Carry, Rider};

/// A machine has the invariant at its start, whatever image it runs. What an enabled move of a state that has it
/// does to the memory system can be done, one act after the other, and the move leads to a state that has it,
/// whatever rider the clerk leaves. So each state has it that moves lead to from the start, whatever moves they are
/// and whatever riders clerks leave.
pub fn every_step_keeps_it<R: Rider, K: Carry>()
    ensures { IsInvariant R.riding K.carrying MachineHolds state_start enabled acts step }
{}

/// And so does each state of a run, whatever its choices are.
pub fn every_state_of_a_run_has_it()
    ensures { EachRunHas run (MachineHolds none_riding none_carrying) }
{}

/// What a step rests on: of each enabled move the message has a row in its receiver's table, and no link that
/// the move pushes to is full. Where a block's data come, the access that waits for them can be made. Until each
/// core's program is done some move is enabled, and then nothing is under way, and no move is enabled.
pub fn moves_go_on_to_the_end<R: Rider, K: Carry>()
    ensures { MovesOn R.riding K.carrying MachineHolds enabled moves has_row_for HasRoomFor all_done }
{}
