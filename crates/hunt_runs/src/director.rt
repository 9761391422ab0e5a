//! Which step a run by a policy takes next.
ghost use Rattle.std.specs.Prelude.{◌≡◌, ◌≤◌, ◌<◌, ◌||◌, IfSome, None, false, length};
ghost use Rattle.std.specs.List.{range_with_len};
ghost use Rattle.rtr_types.specs.declared.TheConstants.{CORES_MAX};
ghost use Rattle.turn_lists.specs.Actors.{core_of};
ghost use Rattle.hunt_runs.specs.Directing.{IsOf, IsStep, acted_or_settled, acting, core_at_work, decided};
ghost use Rattle.hunt_runs.specs.Directing.{has_made, is_round, picked, settled_or_picked, to_settle, told_of};
ghost use Rattle.hunt_runs.specs.Jumping.{jumps_after};
ghost use Rattle.hunt_runs.specs.Seen.{first_settling, settling};

use crate::decision::{Decision, Enabled};
use crate::jumps::{Jumps, Spot};
use crate::machine::HuntedMachine;
use rtr_types::{CORES_MAX, CoreSet};
use rv_core::Core;
use std::marker::Model;
use turn_lists::Actor;
use turn_policies::Policy;

/// Who decides which step a run takes next, by a policy.
#[derive(Drop)]
pub(crate) struct Director<P> {
    policy: P,
    turn: Option<Actor>,
    made: bool,
    jumps: Jumps,
}

impl<P> Model for Director<P> {
    ghost use Rattle.hunt_runs.specs.Directing.{Directed};

    ghost Value = { Directed P };

    ghost view = { λ d. record { policy = d.policy; turn = d.turn; made = d.made; jumps = d.jumps } };
}

impl<P> Director<P> {
    /// Nobody was picked yet.
    pub fn new(policy: P, jumps: Jumps) -> Director<P>
        ensures { result ≡ record { policy = policy; turn = None; made = false; jumps = jumps } }
    {
        Director {
            policy,
            turn: None,
            made: false,
            jumps,
        }
    }

    /// The policy.
    pub fn into_policy(self) -> P
        ensures { result ≡ self.policy }
    {
        let Director {
            policy,
            turn: _turn,
            made: _made,
            jumps: _jumps,
        } = self;
        policy
    }

    /// The core of the actor that was picked last.
    fn core_at_work(&self) -> u8
        ensures { result ≡ core_at_work self.now.turn }
    {
        match self.turn {
            None => 0,
            Some(actor) => actor.core(),
        }
    }

    /// The actor whose act isn't done.
    fn acting(&self) -> Option<Actor>
        ensures { result ≡ acting self.now }
    {
        if self.made { None } else { self.turn }
    }

    /// What became of this core in the step that was taken: where it stood before and stands now, how many stores its
    /// buffer held and holds, and whether a word changed.
    pub fn note(&mut self, core: u8, before: Spot, after: &Core, stores: Stores, changed: bool)
        requires core { core < length self.old.jumps.last }
        requires few { length self.old.jumps.last ≤ CORES_MAX }
        ensures { self.new ≡ record self.old {
          made = self.old.made
              || has_made self.old.turn before.count after.now.count stores.before stores.after;
          jumps = jumps_after core before after.now stores.after changed self.old.jumps;
        } }
    {
        self.made |= has_made(self.turn, before.count, after.count, stores);
        self.jumps.note(core, before, after, stores.after, changed);
    }
}

impl<P: Policy> Director<P> {
    /// The step that is taken next.
    pub fn decide<M: HuntedMachine>(&mut self, machine: &M) -> Decision
        requires { IsOf self.old (length (M.cores machine.now)) }
        ensures decided { (result, self.new) ≡ decided P.policy self.old (M.seen machine.now) }
        ensures step { IsStep result (M.seen machine.now).steps (length (M.cores machine.now)) }
        ensures of { IsOf self.new (length (M.cores machine.now)) }
    {
        let enabled = machine.enabled();
        match enabled.last_message() {
            Some(number) => Decision {
                number,
                core: self.core_at_work(),
            },
            None => self.act_or_settle(machine, enabled),
        }
    }

    /// With no message under way: the acting actor's step again.
    fn act_or_settle<M: HuntedMachine>(&mut self, machine: &M, enabled: Enabled) -> Decision
        requires cores { enabled.cores ≡ length (M.cores machine.now) }
        requires actors { enabled.actors ≡ (M.seen machine.now).actors }
        requires of { IsOf self.old enabled.cores }
        ensures decided { (result, self.new)
            ≡ acted_or_settled P.policy self.old (M.seen machine.now) (acting self.old) }
        ensures step { IsStep result enabled.steps enabled.cores }
        ensures of { IsOf self.new enabled.cores }
    {
        match self.acting() {
            Some(actor) => enabled.step_of(actor),
            None => self.settle_or_pick(machine, enabled),
        }
    }

    /// With no act under way: the step that settles a core further, else the policy's pick.
    fn settle_or_pick<M: HuntedMachine>(&mut self, machine: &M, enabled: Enabled) -> Decision
        requires cores { enabled.cores ≡ length (M.cores machine.now) }
        requires actors { enabled.actors ≡ (M.seen machine.now).actors }
        requires of { IsOf self.old enabled.cores }
        ensures decided { (result, self.new)
            ≡ settled_or_picked P.policy self.old (M.seen machine.now) (to_settle self.old.turn (M.seen machine.now)) }
        ensures step { IsStep result enabled.steps enabled.cores }
        ensures of { IsOf self.new enabled.cores }
    {
        match to_settle(machine, enabled, self.turn) {
            Some(actor) => enabled.step_of(actor),
            None => self.pick(enabled),
        }
    }

    /// The policy picks from the list, where somebody is in it; else the first enabled step is taken.
    fn pick(&mut self, enabled: Enabled) -> Decision
        requires { IsOf self.old enabled.cores }
        ensures picked { (result, self.new) ≡ picked P.policy self.old enabled.actors }
        ensures step { IsStep result enabled.steps enabled.cores }
        ensures of { IsOf self.new enabled.cores }
    {
        let list = enabled.list_at(self.jumps.round());
        if list.is_nobody() {
            return Decision { number: 0, core: 0 };
        }
        self.tell();
        let actor = self.policy.pick(list);
        self.turn = Some(actor);
        self.made = false;
        enabled.step_of(actor)
    }

    /// The policy hears what became of the actor that was picked last, where one was.
    fn tell(&mut self)
        ensures { self.new ≡ record self.old {
          policy = told_of P.policy self.old.policy self.old.jumps.round self.old.turn;
        } }
    {
        if let Some(actor) = self.turn {
            let goes_round = is_round(self.jumps.round(), actor);
            self.policy.told(actor, goes_round);
        }
    }
}

/// How many stores a core's buffer held before a step, and holds after it.
#[derive(Clone, Copy, Debug, PartialEq, Eq)]
pub(crate) struct Stores {
    pub before: usize,
    pub after: usize,
}

/// Whether in a step of its core the actor that was picked executed an instruction, or made a store, where it is a
/// buffer.
fn has_made(turn: Option<Actor>, before: u32, after: u32, stores: Stores) -> bool
    ensures { result ≡ has_made turn before after stores.before stores.after }
{
    match turn {
        None => false,
        Some(Actor::Core(_)) => after != before,
        Some(Actor::Buffer(_)) => stores.after < stores.before,
    }
}

/// Whether the actor is a core that goes round.
fn is_round(round: CoreSet, actor: Actor) -> bool
    ensures { result ≡ is_round round actor }
{
    match actor {
        Actor::Core(core) => core < CORES_MAX && round.has(core),
        Actor::Buffer(_) => false,
    }
}

/// The actor by whose step a core is settled further: after an act its actor's core, and at first each by number.
fn to_settle<M: HuntedMachine>(machine: &M, enabled: Enabled, turn: Option<Actor>) -> Option<Actor>
    requires cores { enabled.cores ≡ length (M.cores machine.now) }
    requires actors { enabled.actors ≡ (M.seen machine.now).actors }
    requires work { core_at_work turn < enabled.cores }
    ensures value { result ≡ to_settle turn (M.seen machine.now) }
    ensures core { IfSome result (λ actor. core_of actor < enabled.cores) }
{
    match turn {
        Some(actor) => settling(machine, enabled, actor.core()),
        None => {
            machine.is_seen();
            first_settling(machine, enabled)
        }
    }
}

/// The actor by whose step the first core that isn't settled is settled further.
fn first_settling<M: HuntedMachine>(machine: &M, enabled: Enabled) -> Option<Actor>
    requires cores { enabled.cores ≡ length (M.cores machine.now) }
    requires actors { enabled.actors ≡ (M.seen machine.now).actors }
    ensures value { result ≡ first_settling (M.seen machine.now) (range_with_len 0 enabled.cores) }
    ensures core { IfSome result (λ actor. core_of actor < enabled.cores) }
{
    for core in 0..enabled.cores {
        let actor = settling(machine, enabled, core);
        if actor.is_some() {
            return actor;
        }
    }
    None
}

/// The actor by whose step this core is settled further.
fn settling<M: HuntedMachine>(machine: &M, enabled: Enabled, core: u8) -> Option<Actor>
    requires cores { enabled.cores ≡ length (M.cores machine.now) }
    requires actors { enabled.actors ≡ (M.seen machine.now).actors }
    requires core { core < enabled.cores }
    ensures value { result ≡ settling (M.seen machine.now) core }
    ensures core { IfSome result (λ actor. core_of actor < enabled.cores) }
{
    if machine.load_first(core) {
        return Some(Actor::Buffer(core));
    }
    let own = Actor::Core(core);
    if machine.unseen(core) && enabled.actors.has(own) {
        return Some(own);
    }
    None
}
