//! A policy that notes whom it picks.
ghost use Rattle.std.specs.Prelude.{◌≡◌, IfOk, length};
ghost use Rattle.hunt_runs.specs.Noted.{noted_begun, noting};

use rtr_types::Items;
use run_steps::Made;
use std::alloc::Global;
use std::marker::Model;
use turn_lists::Actor;
use turn_policies::{ActorSet, Policy};

/// A policy that picks as another does, and notes whom it picks, as long as there is room for it.
#[derive(Drop)]
pub(crate) struct Noting<P> {
    policy: P,
    picks: Vec<Actor>,
    room: usize,
}

impl<P> Model for Noting<P> {
    ghost use Rattle.std.specs.Prelude.{◌≤◌, length, vec_capacity};
    ghost use Rattle.hunt_runs.specs.Noted.{Noted};

    ghost Value = { Noted P };

    ghost view = { λ s. record { policy = s.policy; picks = s.picks.items; room = s.room } };

    ghost invariant = { λ s. s.room ≤ vec_capacity s.picks };
}

impl<P: Drop> Noting<P> {
    /// As this policy picks. Nobody was picked yet, and there is room for so many picks. The only refusal is want of
    /// memory.
    pub fn new(alloc: Global, policy: P, room: usize) -> Made<Noting<P>>
        ensures { IfOk result (λ s. s ≡ noted_begun room policy) }
    {
        Ok(Noting {
            picks: Vec::with_capacity(alloc, room)?,
            policy,
            room,
        })
    }

    /// Whom it picked, in order: as many of them as there was room for.
    pub fn into_picks(self) -> Items<Actor>
        ensures { result ≡ self.picks }
    {
        let Noting {
            policy: _policy,
            picks,
            room: _room,
        } = self;
        Items::from_vec(picks)
    }
}

impl<P: Policy> Policy for Noting<P> {
    ghost policy = { noting P.policy };

    fn pick(&mut self, actors: ActorSet) -> Actor {
        let actor = self.policy.pick(actors);
        if self.picks.len() < self.room {
            self.picks.push_reserved(actor);
        }
        actor
    }

    fn told(&mut self, actor: Actor, goes_round: bool) {
        self.policy.told(actor, goes_round);
    }
}
