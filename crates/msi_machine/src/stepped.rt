//! The machine as a run steps it.
ghost use Rattle.std.specs.Prelude.{◌≡◌, ◌<◌, ◌≤◌, ◌+◌, ◌*◌, ℕ, IsTrue, List, length, true};
ghost use Rattle.access_times.specs.Riding.{none_carrying, none_riding};
ghost use Rattle.rtr_types.specs.declared.TheConstants.{BLOCK_WORDS};
ghost use Rattle.machine_bound.specs.Bound.{left as steps_left, total_earned, total_retired};
ghost use Rattle.machine_data.specs.Coherent.{Coherent};
ghost use Rattle.machine_plain.specs.Plain.{plain};
ghost use Rattle.msi_laws.specs.Moving.{links_empty};
ghost use Rattle.msi_memory.specs.Finals.{SameWords};
ghost use Rattle.msi_state.specs.FinalMemory.{final_words};
ghost use Rattle.msi_state.specs.States.{all_done, core_at};

use crate::machine::Machine;
use crate::standing::are_done;
use access_times::{Carry, Rider};
use machine_ports::SteppedMachine;
use rtr_types::BLOCK_WORDS;
use rv_core::Core;

impl<R: Rider, K: Carry> SteppedMachine for Machine<R, K> {
    ghost image = { λ m. m.state.image };

    ghost cores = { λ m. m.state.cores };

    ghost words = { λ m block. final_words none_riding none_carrying (plain m.state) block };

    ghost ended = { λ m. all_done m.state };

    ghost left = { λ m. steps_left R.riding m.state };

    /// Whether each core's program is done. Then nothing is under way any more, the steps of the run are
    /// all paid for by the instructions that retired, and the memory is what the last write to each word
    /// left.
    fn done(&self) -> bool
        ensures done { result ≡ all_done self.now.state }
        ensures plain { result ≡ all_done (plain self.now.state) }
        ensures links { IsTrue result → links_empty self.now.state.memory ≡ true }
        ensures paid { IsTrue result → total_earned R.riding self.now.state
            ≡ (2 * length self.now.state.cores + 4) * total_retired self.now.state }
        ensures last { (memory : ℕ → List ℕ) → IsTrue result → Coherent R.riding K.carrying self.now.state memory
            → (block : ℕ) → final_words R.riding K.carrying self.now.state block ≡ memory block }
    {
        // where a move can be made some core isn't done
        let marks = self.marks;
        if !marks.is_empty() {
            return false;
        }
        are_done(self.standings.as_slice())
    }

    /// A core.
    fn core(&self, core: u8) -> &Core
        requires { core < length self.now.state.cores }
        ensures value { result.now ≡ (core_at self.now.state.cores core) }
        ensures number { result.now.id ≡ core }
        ensures within { result.now.count ≤ result.now.limit }
    {
        &self.parts.cores[core as usize]
    }

    /// The words of a block of the memory at the end: the owner's where a cache owns the block, else the home's.
    /// Each is what the last write to it left.
    fn final_words(&self, block: u32) -> [u32; BLOCK_WORDS]
        requires done { all_done self.now.state ≡ true }
        requires within { block * BLOCK_WORDS < self.now.state.image.words }
        ensures value { SameWords result (final_words R.riding K.carrying self.now.state block) }
        ensures plain { SameWords result (final_words none_riding none_carrying (plain self.now.state) block) }
        ensures last { (memory : ℕ → List ℕ) → Coherent R.riding K.carrying self.now.state memory
            → SameWords result (memory block) }
    {
        let parts = &self.parts;
        parts.memory.final_words(block)
    }
}
