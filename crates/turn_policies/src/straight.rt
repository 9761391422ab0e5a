//! The straight policy.
ghost use Rattle.std.specs.Prelude.{◌≡◌, None, false, true};
ghost use Rattle.turn_lists.specs.declared.actor.Actor.{Actor};
ghost use Rattle.turn_policies.specs.Listed.{is_listed, is_nobody};
ghost use Rattle.turn_policies.specs.Straight.{going_on, straight_policy};

use crate::actor_set::ActorSet;
use crate::policy::Policy;
use std::marker::Model;
use turn_lists::Actor;

/// The straight policy: the actor that was picked last goes on as long as it may, and then the first that may.
#[derive(Drop)]
pub struct Straight {
    last: Option<Actor>,
}

impl Model for Straight {
    ghost use Rattle.std.specs.Prelude.{Option};
    ghost use Rattle.turn_lists.specs.declared.actor.Actor.{Actor};

    ghost Value = { Option Actor };

    ghost view = { λ s. s.last };
}

impl Straight {
    /// Nobody was picked yet.
    pub fn new() -> Straight
        ensures { result ≡ None }
    {
        Straight { last: None }
    }
}

impl Policy for Straight {
    ghost policy = { straight_policy };

    fn pick(&mut self, actors: ActorSet) -> Actor {
        let actor = going_on(self.last, actors);
        self.last = Some(actor);
        actor
    }

    fn told(&mut self, _actor: Actor, _goes_round: bool) {}
}

/// The actor that was picked last, where it may act; else the first that may.
pub(crate) fn going_on(last: Option<Actor>, actors: ActorSet) -> Actor
    requires { is_nobody actors ≡ false }
    ensures value { result ≡ going_on last actors }
    ensures listed { is_listed actors result ≡ true }
{
    match last {
        Some(last) if actors.has(last) => last,
        _ => actors.first(),
    }
}
