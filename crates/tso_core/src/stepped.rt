//! The machine as a run steps it.
ghost use Rattle.std.specs.Prelude.{◌≡◌, ◌<◌, ◌≤◌, ◌*◌, ℕ, IsTrue, List, length, map, true};
ghost use Rattle.access_times.specs.Riding.{none_carrying, none_riding};
ghost use Rattle.rtr_types.specs.declared.TheConstants.{BLOCK_WORDS};
ghost use Rattle.msi_laws.specs.Moving.{links_empty};
ghost use Rattle.msi_memory.specs.Finals.{SameWords, block_words};
ghost use Rattle.tso_bound.specs.Bound.{left as steps_left};
ghost use Rattle.tso_data.specs.Orders.{Coherent};
ghost use Rattle.tso_plain.specs.Plain.{plain};
ghost use Rattle.tso_state.specs.States.{all_done, core_at};

use crate::machine::BufferedMachine;
use access_times::{Carry, Rider};
use machine_ports::SteppedMachine;
use rtr_types::BLOCK_WORDS;
use rv_core::Core;

impl<R: Rider, K: Carry> SteppedMachine for BufferedMachine<R, K> {
    ghost image = { λ m. m.state.image };

    ghost cores = { λ m. map (λ t. t.core) m.state.cores };

    ghost words = { λ m block. block_words none_riding none_carrying (plain m.state).memory block };

    ghost ended = { λ m. all_done m.state };

    ghost left = { λ m. steps_left m.state };

    /// Whether each core has ended: its program is done, and each of its accesses is ordered or logged. Then
    /// nothing is under way any more, and the memory is what the last ordered write to each word left.
    ///
    /// It is where no move can be made.
    fn done(&self) -> bool
        ensures done { result ≡ all_done self.now.state }
        ensures plain { result ≡ all_done (plain self.now.state) }
        ensures links { IsTrue result → links_empty self.now.state.memory ≡ true }
        ensures last { (memory : ℕ → List ℕ) → IsTrue result → Coherent R.riding K.carrying self.now.state memory
            → (block : ℕ) → block_words R.riding K.carrying self.now.state.memory block ≡ memory block }
    {
        // What always holds of a machine says this.
        let _ = &self.parts;
        self.all_marks().count() == 0
    }

    /// A core, without its pending accesses.
    fn core(&self, core: u8) -> &Core
        requires { core < length self.now.state.cores }
        ensures value { result.now ≡ (core_at self.now.state.cores core).core }
        ensures number { result.now.id ≡ core }
        ensures within { result.now.count ≤ result.now.limit }
    {
        self.parts.cores[core as usize].core()
    }

    /// The words of a block of the memory at the end: the owner's where a cache owns the block, else the home's.
    /// Each is what the last ordered write to it left.
    fn final_words(&self, block: u32) -> [u32; BLOCK_WORDS]
        requires done { all_done self.now.state ≡ true }
        requires within { block * BLOCK_WORDS < self.now.state.image.words }
        ensures value { SameWords result (block_words R.riding K.carrying self.now.state.memory block) }
        ensures plain { SameWords result (block_words none_riding none_carrying (plain self.now.state).memory block) }
        ensures last { (memory : ℕ → List ℕ) → Coherent R.riding K.carrying self.now.state memory
            → SameWords result (memory block) }
    {
        let parts = &self.parts;
        parts.memory.final_words(block)
    }
}
