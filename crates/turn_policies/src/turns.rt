//! The policy of a list of turns.
ghost use Rattle.std.specs.Prelude.{◌≡◌, ◌<◌, Some, drop, false, length, slice_index_or, true};
ghost use Rattle.turn_lists.specs.declared.actor.Turn.{Turn};
ghost use Rattle.turn_policies.specs.Listed.{is_listed, is_nobody};
ghost use Rattle.turn_policies.specs.TurnByTurn.{after_turns, final_actor, other_than, turns_begun};
ghost use Rattle.turn_policies.specs.TurnByTurn.{turns_going, turns_policy};

use crate::actor_set::ActorSet;
use crate::policy::Policy;
use crate::straight::going_on;
use rtr_types::Items;
use std::marker::Model;
use turn_lists::{Actor, Turn};

/// The policy of a list of turns: of each turn in order its actor, as often as it says, while it may act. After the
/// last turn the first other actor than that turn's goes on, and then straight, so that each turn ends by another's
/// going on.
#[derive(Drop)]
pub struct ByTurns {
    turns: Vec<Turn>,
    next: usize,
    last_turn: Option<Actor>,
    last: Option<Actor>,
}

impl Model for ByTurns {
    ghost use Rattle.std.specs.Prelude.{drop};
    ghost use Rattle.turn_policies.specs.TurnByTurn.{TurnsLeft};

    ghost Value = { TurnsLeft };

    ghost view = { λ s. record { turns = drop s.next s.turns.items; final = s.last_turn; last = s.last } };
}

impl ByTurns {
    /// These turns are left, and nobody was picked yet.
    pub fn new(turns: Items<Turn>) -> ByTurns
        ensures { result ≡ turns_begun turns }
    {
        let turns = turns.into_vec();
        ByTurns {
            last_turn: last_actor(turns.as_slice()),
            turns,
            next: 0,
            last: None,
        }
    }
}

impl Policy for ByTurns {
    ghost policy = { turns_policy };

    fn pick(&mut self, actors: ActorSet) -> Actor {
        let next = first_going(self.turns.as_slice(), self.next, actors);
        self.next = next;
        if next < self.turns.len() {
            let turn = self.turns[next];
            self.turns[next].count = turn.count - 1;
            turn.actor
        } else {
            let actor = after_turns(self.last_turn, self.last, actors);
            self.last = Some(actor);
            actor
        }
    }

    fn told(&mut self, _actor: Actor, _goes_round: bool) {}
}

/// The actor of the last turn, where there is a turn.
fn last_actor(turns: &[Turn]) -> Option<Actor>
    ensures { result ≡ final_actor turns.now }
{
    match turns.last() {
        Some(turn) => Some(turn.actor),
        None => None,
    }
}

/// The place of the first turn from a place on that isn't over; the number of all turns where each is.
fn first_going(turns: &[Turn], from: usize, actors: ActorSet) -> usize
    ensures going { drop result turns.now ≡ turns_going actors (drop from turns.now) }
    ensures some { result < length turns.now → (d : Turn) → 0 < (slice_index_or turns.now result d).count }
    ensures listed { result < length turns.now → (d : Turn) → is_listed actors (slice_index_or turns.now result d).actor
        ≡ true }
{
    for place in from..turns.len() {
        let turn = turns[place];
        if turn.count > 0 && actors.has(turn.actor) {
            return place;
        }
    }
    turns.len()
}

/// The actor that is picked after all turns.
fn after_turns(last_turn: Option<Actor>, last: Option<Actor>, actors: ActorSet) -> Actor
    requires { is_nobody actors ≡ false }
    ensures value { result ≡ after_turns last_turn last actors }
    ensures listed { is_listed actors result ≡ true }
{
    match (last, last_turn) {
        (Some(last), _) => going_on(Some(last), actors),
        (None, Some(last_turn)) => other_than(last_turn, actors),
        (None, None) => actors.first(),
    }
}

/// The first actor but for this one; the first of all where there is no other.
fn other_than(actor: Actor, actors: ActorSet) -> Actor
    requires { is_nobody actors ≡ false }
    ensures value { result ≡ other_than (Some actor) actors }
    ensures listed { is_listed actors result ≡ true }
{
    for number in 0..actors.count() {
        let other = actors.nth(number);
        if !other.is(actor) {
            return other;
        }
    }
    actors.first()
}
