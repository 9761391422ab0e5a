//! What every policy offers.
ghost use Rattle.std.specs.Prelude.{◌≡◌, true, false};
ghost use Rattle.turn_policies.specs.Listed.{is_listed, is_nobody};
ghost use Rattle.turn_policies.specs.Policies.{PolicyOf};

use crate::actor_set::ActorSet;
use turn_lists::Actor;

/// A policy: it picks who makes the next access from the actors that may act at that moment, and is told after each
/// act. What it does is one value, by which a run is defined.
pub trait Policy: Drop {
    /// Whom it picks, and what it keeps in mind.
    ghost policy: { PolicyOf Self };

    /// Picks one of these actors, of whom there is one.
    fn pick(&mut self, actors: ActorSet) -> Actor
        requires { is_nobody actors ≡ false }
        ensures picked { result ≡ policy.pick self.old actors }
        ensures state { self.new ≡ policy.after_pick self.old actors }
        ensures listed { is_listed actors result ≡ true };

    /// Hears that the actor has acted, and whether it is a core that goes round now: one that can't do anything else
    /// until a word changes.
    fn told(&mut self, actor: Actor, goes_round: bool)
        ensures { self.new ≡ policy.told self.old actor goes_round };
}
