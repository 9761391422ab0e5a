//! What a run asks of a machine, whatever a core is.
ghost use Rattle.std.specs.Prelude.{◌≡◌, ◌<◌, ◌*◌, ℕ, Bool, List, length, slice_index_or, true};
ghost use Rattle.image_mem.specs.Contents.{Contents};
ghost use Rattle.msi_memory.specs.Finals.{SameWords};
ghost use Rattle.rtr_types.specs.declared.TheConstants.{BLOCK_WORDS};
ghost use Rattle.rv_core.specs.States.{starting};
ghost use Rattle.rv_core.specs.declared.core_state.Core.{Core};

use rtr_types::BLOCK_WORDS;
use rv_core::Core;

/// A machine that is stepped until no step is left, and shows its cores, and its memory at the end.
pub trait SteppedMachine {
    /// The image that is run.
    ghost image: { Self → Contents };

    /// Its cores, without their pending accesses.
    ghost cores: { Self → List Core };

    /// The words of each block of its memory, which hold where no step is left.
    ghost words: { Self → ℕ → List ℕ };

    /// Whether no step is left.
    ghost ended: { Self → Bool };

    /// How many steps may be left.
    ghost left: { Self → ℕ };

    /// Whether no step is left.
    fn done(&self) -> bool
        ensures { result ≡ ended self.now };

    /// A core.
    fn core(&self, core: u8) -> &Core
        requires { core < length (cores self.now) }
        ensures { result.now ≡ slice_index_or (cores self.now) core (starting 0 0) };

    /// The words of a block of the memory where no step is left.
    fn final_words(&self, block: u32) -> [u32; BLOCK_WORDS]
        requires done { ended self.now ≡ true }
        requires within { block * BLOCK_WORDS < (image self.now).words }
        ensures { SameWords result (words self.now block) };
}
