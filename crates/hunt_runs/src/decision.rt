//! Which steps are enabled, and which of them is taken.
ghost use Rattle.std.specs.Prelude.{◌≡◌, ◌≤◌, ◌<◌, length, true};
ghost use Rattle.rtr_types.specs.CoreSets.{has};
ghost use Rattle.move_marks.specs.Members.{members};
ghost use Rattle.turn_lists.specs.Actors.{core_of};
ghost use Rattle.turn_lists.specs.declared.actor.Actor.{Actor};
ghost use Rattle.turn_policies.specs.Listed.{is_listed, listed};
ghost use Rattle.hunt_runs.specs.Directing.{IsStep, list_at, step_of, without};
ghost use Rattle.hunt_runs.specs.Seen.{last_message, place_in, place_of, step_number};

use move_marks::count;
use rtr_types::CoreSet;
use turn_lists::Actor;
use turn_policies::ActorSet;

/// The number of the step that is taken, among those enabled, and the core that it is of.
#[derive(Clone, Copy, Debug, PartialEq, Eq)]
pub struct Decision {
    pub number: u32,
    pub core: u8,
}

/// Which steps of a machine are enabled.
#[derive(Clone, Copy)]
pub struct Enabled {
    /// How many cores the machine has.
    pub cores: u8,
    /// The actors whose steps are enabled.
    pub actors: ActorSet,
    /// How many steps are enabled: first those of the actors in order, and then those of messages.
    pub steps: u32,
    ghost within: { (a : Actor) → is_listed actors a ≡ true → core_of a < cores },
    ghost listed: { length (listed actors) ≤ steps },
    ghost few: { steps < 256 },
}

impl Enabled {
    /// The number of an actor's step; 0 where it isn't enabled.
    fn number_of(self, actor: Actor) -> u32
        ensures value { result ≡ step_number self.actors actor }
        ensures within { 0 < self.steps → result < self.steps }
        ensures byte { result < 256 }
    {
        if self.actors.has(actor) {
            place_of(self.actors, actor)
        } else {
            0
        }
    }

    /// The step of an actor of one of the cores.
    pub(crate) fn step_of(self, actor: Actor) -> Decision
        requires { core_of actor < self.cores }
        ensures value { result ≡ step_of self.actors actor }
        ensures step { IsStep result self.steps self.cores }
    {
        Decision {
            number: self.number_of(actor),
            core: actor.core(),
        }
    }

    /// The number of the last enabled step, where it is a message's.
    pub(crate) fn last_message(self) -> Option<u32>
        ensures { result ≡ last_message self.actors self.steps }
    {
        if self.actors.count() < self.steps {
            Some(self.steps - 1)
        } else {
            None
        }
    }

    /// The actors that may be picked: those whose steps are enabled, without the cores that go round; where that leaves
    /// none, all.
    pub(crate) fn list_at(self, round: CoreSet) -> ActorSet
        ensures value { result ≡ list_at round self.actors }
        ensures enabled { (a : Actor) → is_listed result a ≡ true → core_of a < self.cores }
    {
        let some = ActorSet {
            cores: without(self.actors.cores, round),
            buffers: self.actors.buffers,
        };
        if some.is_nobody() { self.actors } else { some }
    }
}

/// The cores of the first set that aren't in the second.
#[tactic(auto, unfolding(crate::specs::Directing::without))]
fn without(set: CoreSet, gone: CoreSet) -> CoreSet
    ensures { result ≡ without set gone }
{
    CoreSet {
        bits: set.bits & !gone.bits,
    }
}

/// The place of an actor of a set among all of it.
fn place_of(set: ActorSet, actor: Actor) -> u32
    requires { is_listed set actor ≡ true }
    ensures value { result ≡ place_of set actor }
    ensures within { result < length (listed set) }
{
    match actor {
        Actor::Core(core) => place_in(set.cores, core),
        Actor::Buffer(core) => count(set.cores) + place_in(set.buffers, core),
    }
}

/// How many of a set's cores are below this one, which is one of them.
fn place_in(set: CoreSet, core: u8) -> u32
    requires { has set core ≡ true }
    ensures value { result ≡ place_in set core }
    ensures within { result < length (members set) }
{
    count(CoreSet {
        bits: set.bits & ((1u32 << core) - 1) as u16,
    })
}
