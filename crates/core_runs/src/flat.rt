//! A flat memory as what a core reaches, where nobody watches.
ghost use Rattle.std.specs.Prelude.{length};
ghost use Rattle.core_runs.specs.Flat.{ToldFlat, flat_keeps_words};

use crate::running::{Reach, Refused};
use image_mem::{Memory, merge_lanes};
use rtr_types::Instr;
use rv_core::atomics::exchanged;
use rv_decode::AmoOp;

/// The words of a flat memory. An access finds its word there and leaves it there; none is refused.
impl<W> Reach<W> for Memory {
    ghost words = { λ m. length m };

    ghost accepts = { λ m w at. Unit {0} };

    ghost told = { λ m w at used old new n v. ToldFlat m w used old new n v };

    ghost refused = { λ m w at n v. ⊥ };

    #[inline(always)]
    fn local(&mut self, _watch: &mut W, _at: Instr) {}

    #[inline(always)]
    fn load(&mut self, _watch: &mut W, _at: Instr, word: u32) -> Result<u32, Refused> {
        Ok(self.get(word))
    }

    #[inline(always)]
    fn store(&mut self, _watch: &mut W, _at: Instr, word: u32, value: u32) -> Result<(), Refused> {
        self.put(word, value);
        Ok(())
    }

    #[inline(always)]
    fn store_part(
        &mut self,
        _watch: &mut W,
        _at: Instr,
        address: u32,
        size: u32,
        value: u32,
    ) -> Result<(), Refused> {
        let old = self.get(address / 4);
        self.put(address / 4, merge_lanes(old, value, address, size));
        Ok(())
    }

    #[inline(always)]
    fn change(
        &mut self,
        _watch: &mut W,
        _at: Instr,
        word: u32,
        op: AmoOp,
        value: u32,
    ) -> Result<u32, Refused> {
        let old = self.get(word);
        self.put(word, exchanged(op, old, value));
        Ok(old)
    }

    ghost keeps_words = { flat_keeps_words };

    ghost keeps_accepting = { λ r w at used old new s v later told same below accepts. tt };
}
