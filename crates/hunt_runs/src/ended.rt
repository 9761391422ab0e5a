//! The end of a run, as one that can be asked.
ghost use Rattle.std.specs.Prelude.{◌≡◌, ◌<◌, [], length, true};
ghost use Rattle.rtr_types.specs.Parameters.{Fits};
ghost use Rattle.end_claims.specs.Ends.{end_of};
ghost use Rattle.run_steps.specs.Ends.{outcome_with};

use crate::machine::HuntedMachine;
use end_claims::EndView;
use rtr_types::BLOCK_WORDS;
use rv_core::{Core, Need, Stop};

/// A machine at the end of its run, as an end that can be asked.
#[derive(Drop)]
pub struct AtEnd<'a, M: HuntedMachine> {
    /// The machine, which has ended.
    pub machine: &'a M,
    /// How many cores it has.
    pub cores: u8,
    ghost ended: { M.ended machine.now ≡ true },
    ghost many: { cores ≡ length (M.cores machine.now) },
}

impl<M: HuntedMachine> EndView for AtEnd<'_, M> {
    ghost end = { λ view. end_of (M.image view.machine.now) (outcome_with (M.cores view.machine.now)
        (M.words view.machine.now) (M.image view.machine.now).words []) };

    fn cores(&self) -> u8 {
        self.cores
    }

    fn core(&self, core: u8) -> &Core {
        self.machine.core(core)
    }

    fn stop(&self, core: u8) -> Stop {
        match self.machine.need_of(core) {
            Need::Done(stop) => stop,
            _ => Stop::Total,
        }
    }

    fn final_word(&self, word: u32) -> u32 {
        let words = self.machine.final_words(word / BLOCK_WORDS as u32);
        words[word as usize % BLOCK_WORDS]
    }
}
