//! What stops a place that goes on.
ghost use Rattle.std.specs.Prelude.{◌≡◌, ◌<◌, ℕ, Bool, false, true};
ghost use Rattle.rtr_types.specs.declared.TheConstants.{CORES_MAX};
ghost use Rattle.rv_core.specs.declared.outcome.Outcome.{Outcome};
ghost use Rattle.replay_core.specs.Plans.{Plan};
ghost use Rattle.replay_core.specs.Play.{Use};
ghost use Rattle.debug_place.specs.Hits.{Hits, hit_in};

use rtr_types::Kind;
use std::alloc::AllocError;

/// Before which core's next instruction a move was stopped; none where it came to its cut. No move is refused.
pub type Stopped = Result<Option<u8>, AllocError>;

/// A test by which a place stops.
pub trait Stops {
    /// Whether it stops in a state, before a core takes its next instruction.
    ghost stops: { Self → Plan → Outcome → ℕ → Bool };

    /// The same by the core's own count and its next instruction.
    ghost hits: { Self → Hits };

    /// Nothing else of a state matters to it.
    ghost own: { (test : Self) (p : Plan) (s : Outcome) (core : ℕ) →
        stops test p s core ≡ hit_in (hits test) p s core };

    /// Whether it stops a core before an instruction at this address.
    fn hits_pc(&self, core: u8, pc: u32) -> bool
        requires { core < CORES_MAX }
        ensures { result ≡ (hits self.now).by_pc core pc };

    /// Whether it stops a core before an instruction that makes this access, or none.
    fn hits_use(&self, core: u8, used: Option<(Kind, u32)>) -> bool
        requires { core < CORES_MAX }
        ensures { result ≡ (hits self.now).by_use core used };

    /// Whether it stops a core before its last instruction, whatever that is.
    fn stops_last(&self, core: u8) -> bool
        requires { core < CORES_MAX }
        ensures { result ≡ (hits self.now).last core };

    /// Whether no address can stop a core.
    fn passes_pcs(&self, core: u8) -> bool
        requires { core < CORES_MAX }
        ensures { result ≡ true → (pc : ℕ) → (hits self.now).by_pc core pc ≡ false };

    /// Whether no access can stop a core.
    fn passes_uses(&self, core: u8) -> bool
        requires { core < CORES_MAX }
        ensures { result ≡ true → (used : Use) → (hits self.now).by_use core used ≡ false };
}
