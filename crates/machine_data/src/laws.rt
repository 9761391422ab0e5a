//! What the copies of blocks are, what accesses find, and what is left of them.
ghost use Rattle.std.specs.Prelude.{◌≡◌, ℕ, ◌*◌, ◌≤◌, true, IsTrue, List, length};
ghost use Rattle.access_times.specs.Riding.{none_carrying, none_riding};
ghost use Rattle.image_mem.specs.Contents.{Contents};
ghost use Rattle.machine_data.specs.LastValues.{RunsFindLast, RunsLeaveLast};
ghost use Rattle.machine_invariant.specs.Holds.{MachineHolds};
ghost use Rattle.machine_data.specs.Coherent.{Coherent, Finds, LastWrite, memory_after, opening_memory};
ghost use Rattle.msi_state.specs.FinalMemory.{final_memory, final_word, final_words};
ghost use Rattle.msi_state.specs.Runs.{accesses, run};
ghost use Rattle.msi_state.specs.States.{State, all_done, state_start};
ghost use Rattle.msi_state.specs.Steps.{enabled, event, step};
ghost use Rattle.msi_state.specs.declared.moves.Move.{Move};
ghost use Rattle.machine_data.specs.OneMore.{AccessLeavesLaw};

use access_times::{Carry, Rider};

/// At its start a machine is coherent with the memory that the image has.
pub fn a_start_has_what_the_image_has<R: Rider, K: Carry>()
    ensures { (image : Contents) (cores limit : ℕ) → length image.bytes ≤ 4 * image.words
        → Coherent R.riding K.carrying (state_start R.riding K.carrying image cores limit) (opening_memory image) }
{}

/// Each enabled move of a state that has the invariant and is coherent with a memory leads to a state that is
/// coherent with the memory after the move's access, whatever rider the clerk leaves; and the access finds the
/// memory's value.
pub fn every_step_keeps_data<R: Rider, K: Carry>()
    ensures coherent { (s : State R K) (move : Move) (rider : R) (memory : ℕ → List ℕ)
        → IsTrue (enabled R.riding K.carrying s move)
        → MachineHolds R.riding K.carrying s → Coherent R.riding K.carrying s memory
        → Coherent R.riding K.carrying (step R.riding K.carrying rider s move)
        (memory_after (event R.riding K.carrying s move) memory) }
    ensures finds { (s : State R K) (move : Move) (memory : ℕ → List ℕ) → IsTrue (enabled R.riding K.carrying s move)
        → MachineHolds R.riding K.carrying s → Coherent R.riding K.carrying s memory
        → Finds (event R.riding K.carrying s move) memory }
{}

/// The memory after an event has in each word what the event's access wrote there, or else what it had.
pub fn a_word_has_what_was_written_last()
    ensures { LastWrite }
{}

/// The value before of each access of a run is the value after of the last earlier access to that word,
/// or what the image has there. And the word is one of the memory's.
pub fn an_access_finds_the_last_value()
    ensures { RunsFindLast accesses }
{}

/// Once each core's program is done, the final memory of a state that has the invariant is the memory that it
/// is coherent with.
pub fn the_end_has_the_memory<R: Rider, K: Carry>()
    ensures { (s : State R K) (memory : ℕ → List ℕ) → MachineHolds R.riding K.carrying s → all_done s ≡ true
        → Coherent R.riding K.carrying s memory → (block : ℕ) → final_words R.riding K.carrying s block ≡ memory block }
{}

/// Once each core's program is done, the final memory of a run has in each word the value after of the
/// last access to it, or what the image has there.
pub fn final_memory_law()
    ensures { RunsLeaveLast run all_done (final_word none_riding none_carrying) (final_memory none_riding none_carrying)
        accesses }
{}

/// An access that finds what the earlier ones left in its word leaves the memory as they did, but for that word where
/// it writes: there it leaves its value after.
pub fn one_access_more()
    ensures { AccessLeavesLaw }
{}
