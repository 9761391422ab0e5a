//! Ends of runs that can be asked.
ghost use Rattle.std.specs.Prelude.{◌≡◌, ◌<◌, length};
ghost use Rattle.end_claims.specs.Ends.{End, core_at, end_of, stop_at};

use image_mem::Image;
use rv_core::{Core, Outcome, Stop};

/// Where the end of a run can be looked at.
pub trait EndView {
    /// How the run ended.
    ghost end: { Self → End };

    /// How many cores there are.
    fn cores(&self) -> u8
        ensures { result ≡ length (end self.now).cores };

    /// A core.
    fn core(&self, core: u8) -> &Core
        requires { core < length (end self.now).cores }
        ensures { result.now ≡ core_at (end self.now) core };

    /// Why a core's program is done.
    fn stop(&self, core: u8) -> Stop
        requires { core < length (end self.now).cores }
        ensures { result ≡ stop_at (end self.now) core };

    /// A word of memory, by its index.
    fn final_word(&self, word: u32) -> u32
        requires { word < (end self.now).image.words }
        ensures { result ≡ (end self.now).word word };
}

/// The outcome of a run of an image, as an end that can be asked.
#[derive(Clone, Copy)]
pub struct OutcomeView<'a> {
    /// The image that was run.
    pub image: &'a Image,
    /// What the run left; it has fewer than 256 cores.
    pub outcome: &'a Outcome,
    ghost few: { length outcome.now.cores < 256 },
}

impl EndView for OutcomeView<'_> {
    ghost end = { λ view. end_of view.image.now view.outcome.now };

    fn cores(&self) -> u8 {
        self.outcome.cores.len() as u8
    }

    fn core(&self, core: u8) -> &Core {
        &self.outcome.cores.as_slice()[core as usize]
    }

    #[tactic(auto, unfolding(crate::specs::Ends::stop_at))]
    fn stop(&self, core: u8) -> Stop {
        self.core(core).stop(self.image)
    }

    fn final_word(&self, word: u32) -> u32 {
        self.outcome
            .words
            .as_slice()
            .get(word as usize)
            .copied()
            .unwrap_or(0)
    }
}
