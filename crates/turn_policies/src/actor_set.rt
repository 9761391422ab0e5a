//! Sets of actors.
ghost use Rattle.std.specs.Prelude.{◌≡◌, ◌<◌, false, length, slice_index_or, true};
ghost use Rattle.rtr_types.specs.CoreSets.{has};
ghost use Rattle.turn_lists.specs.declared.actor.Actor.{Actor};
ghost use Rattle.turn_policies.specs.Listed.{first_of, is_listed, is_nobody, listed};

use move_marks::{count, nth};
use rtr_types::{CORES_MAX, CoreSet};
use turn_lists::Actor;

/// A set of actors, as those that may act next: of the cores these, and of the store buffers those of these cores.
#[derive(Clone, Copy, Debug, PartialEq, Eq)]
pub struct ActorSet {
    pub cores: CoreSet,
    pub buffers: CoreSet,
}

impl ActorSet {
    /// Whether nobody is in the set.
    pub fn is_nobody(self) -> bool
        ensures { result ≡ is_nobody self }
    {
        self.count() == 0
    }

    /// Whether the actor is in the set.
    pub fn has(self, actor: Actor) -> bool
        ensures { result ≡ is_listed self actor }
    {
        match actor {
            Actor::Core(core) => has_core(self.cores, core),
            Actor::Buffer(core) => has_core(self.buffers, core),
        }
    }

    /// How many actors are in the set.
    pub fn count(self) -> u32
        ensures { result ≡ length (listed self) }
    {
        count(self.cores) + count(self.buffers)
    }

    /// The actor of this number, from 0: cores by number, then buffers by number.
    pub fn nth(self, number: u32) -> Actor
        requires { number < length (listed self) }
        ensures value { (d : Actor) → result ≡ slice_index_or (listed self) number d }
        ensures listed { is_listed self result ≡ true }
    {
        let cores = count(self.cores);
        if number < cores {
            Actor::Core(nth(self.cores, number))
        } else {
            Actor::Buffer(nth(self.buffers, number - cores))
        }
    }

    /// The first actor.
    pub fn first(self) -> Actor
        requires { is_nobody self ≡ false }
        ensures value { result ≡ first_of self }
        ensures listed { is_listed self result ≡ true }
    {
        self.nth(0)
    }
}

/// Whether a set has the core; no set has one that there can't be.
fn has_core(set: CoreSet, core: u8) -> bool
    ensures { result ≡ has set core }
{
    core < CORES_MAX && set.has(core)
}
