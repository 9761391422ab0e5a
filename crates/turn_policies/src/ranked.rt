//! Policies by ranks.
ghost use Rattle.std.specs.Prelude.{◌≡◌, ◌-◌, IfOk, false, length, max, true};
ghost use Rattle.turn_lists.specs.declared.actor.Actor.{Actor};
ghost use Rattle.turn_policies.specs.Listed.{is_listed, is_nobody};
ghost use Rattle.turn_policies.specs.Ranked.{drawn_points, exchanged, exchanged_one, greatest_of, lowered};
ghost use Rattle.turn_policies.specs.Ranked.{lowered_times, points_due, points_nearer, ranked_begun};
ghost use Rattle.turn_policies.specs.Ranked.{ranked_policy, shuffled};

use crate::actor_set::ActorSet;
use crate::policy::Policy;
use crate::walk::{below, words_of};
use rand_pcg::Lcg64Xsh32;
use std::alloc::{AllocError, Global};
use std::marker::Model;
use turn_lists::Actor;

/// A policy by ranks: of those that may act the actor with the greatest rank is picked. At each of some points the
/// actor that would be picked gets a rank below all, and so does a core that goes round. Probabilistic concurrency
/// testing (Burckhardt, Kothari, Musuvathi and Nagarajan, ASPLOS 2010), counted in accesses.
#[derive(Drop)]
pub struct Ranks {
    /// All actors by their ranks, the greatest first.
    order: Vec<Actor>,
    /// For each point at which pick it comes: 1 for the next one, 0 where it came.
    points: Vec<u32>,
}

impl Model for Ranks {
    ghost use Rattle.turn_policies.specs.Ranked.{Ranked};

    ghost Value = { Ranked };

    ghost view = { λ s. record { order = s.order.items; points = s.points.items } };
}

impl Ranks {
    /// The policy of this number for bugs of this depth, from 1, over these actors, in runs of so many picks as the
    /// straight one has.
    pub fn new(
        alloc: Global,
        actors: &[Actor],
        picks: u32,
        depth: u8,
        number: u64,
    ) -> Result<Ranks, AllocError>
        ensures { IfOk result (λ ranks. ranks ≡ ranked_begun actors.now picks depth number) }
    {
        let mut words = words_of(number);
        let mut order = actors.to_vec(alloc)?;
        order.reverse();
        shuffle(actors, &mut words, order.as_mut_slice());
        Ok(Ranks {
            points: drawn_points(alloc, depth, picks, words)?,
            order,
        })
    }
}

impl Policy for Ranks {
    ghost policy = { ranked_policy };

    fn pick(&mut self, actors: ActorSet) -> Actor {
        lower_due(self.order.as_mut_slice(), self.points.as_slice(), actors);
        come_nearer(self.points.as_mut_slice());
        greatest_of(self.order.as_slice(), actors)
    }

    fn told(&mut self, actor: Actor, goes_round: bool) {
        if goes_round {
            lower(self.order.as_mut_slice(), actor);
        }
    }
}

/// The actor with the greatest rank of those that may act.
fn greatest_of(order: &[Actor], actors: ActorSet) -> Actor
    requires { is_nobody actors ≡ false }
    ensures value { result ≡ greatest_of order.now actors }
    ensures listed { is_listed actors result ≡ true }
{
    for actor in order {
        if actors.has(*actor) {
            return *actor;
        }
    }
    actors.first()
}

/// Gives the actor a rank below all.
fn lower(order: &mut [Actor], actor: Actor)
    ensures { order.new ≡ lowered actor order.old }
{
    for place in 1..order.len() {
        let before = order[place - 1];
        if before.is(actor) {
            order[place - 1] = order[place];
            order[place] = before;
        }
    }
}

/// For each point that comes at this pick, gives the actor with the greatest rank of those that may act one below all.
fn lower_due(order: &mut [Actor], points: &[u32], actors: ActorSet)
    requires { is_nobody actors ≡ false }
    ensures { order.new ≡ lowered_times (points_due points.now) actors order.old }
{
    for _done in 0..points_due(points) {
        let actor = greatest_of(order, actors);
        lower(order, actor);
    }
}

/// How many points come at this pick.
fn points_due(points: &[u32]) -> usize
    ensures { result ≡ points_due points.now }
{
    let mut due = 0;
    for point in points {
        if *point == 1 {
            due += 1;
        }
    }
    due
}

/// The points come one pick nearer.
fn come_nearer(points: &mut [u32])
    ensures { points.new ≡ points_nearer points.old }
{
    for place in 0..points.len() {
        points[place] = points[place].saturating_sub(1);
    }
}

/// Changes the ranks of each place, from the last one down to that after the first, and of a place drawn up to it.
fn shuffle(actors: &[Actor], words: &mut Lcg64Xsh32, order: &mut [Actor])
    ensures { (order.new, words.new) ≡ shuffled actors.now (length actors.now - 1) words.old order.old }
{
    for done in 1..actors.len() {
        let place = actors.len() - done;
        let other = below(words, place + 1);
        exchange(order, actors[place], actors[other]);
    }
}

/// Lets two actors change ranks.
fn exchange(order: &mut [Actor], one: Actor, other: Actor)
    ensures { order.new ≡ exchanged one other order.old }
{
    for place in 0..order.len() {
        order[place] = exchanged_one(one, other, order[place]);
    }
}

/// The actor that stands where this one stood, once two have changed ranks.
fn exchanged_one(one: Actor, other: Actor, actor: Actor) -> Actor
    ensures { result ≡ exchanged_one one other actor }
{
    if actor.is(one) {
        other
    } else if actor.is(other) {
        one
    } else {
        actor
    }
}

/// The points for bugs of this depth: one less than that, before each of which a number of picks drawn below that of
/// all is made.
fn drawn_points(
    alloc: Global,
    depth: u8,
    picks: u32,
    words: Lcg64Xsh32,
) -> Result<Vec<u32>, AllocError>
    ensures { IfOk result (λ points. points.items ≡ drawn_points (depth - 1) (max picks 1) words) }
{
    let mut words = words;
    let mut points = Vec::new(alloc);
    for _drawn in 1..depth {
        points.push(below(&mut words, picks.max(1) as usize) as u32 + 1)?;
    }
    Ok(points)
}
