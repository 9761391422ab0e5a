//! What is asked of the runs by turns.
ghost use Rattle.std.specs.Prelude.{◌≡◌, Bool, List, IfOk};
ghost use Rattle.turn_lists.specs.declared.actor.Turn.{Turn};

use run_ranges::Asked;
use std::alloc::AllocError;
use turn_lists::Turn;

/// Runs by turns, which are made one after the other. The only refusal is want of memory.
pub trait Tries {
    /// What runs are made on, one after the other.
    type Bench: Drop;

    /// Runs can be made on it.
    ghost serves: { Self → Self.Bench → Type 0 };

    /// The end of the run by these turns breaks the claim.
    ghost breaks: { Self → List Turn → Bool };

    /// Whether the end of the run by these turns breaks the claim.
    fn ask(&self, bench: Self::Bench, turns: &[Turn]) -> Result<Asked<Self::Bench>, AllocError>
        requires { serves self.now bench }
        ensures breaks { IfOk result (λ asked. asked.breaks ≡ breaks self.now turns.now) }
        ensures bench { IfOk result (λ asked. serves self.now asked.bench) };
}
