//! A run by a policy, from its start to its end.
ghost use Rattle.std.specs.Prelude.{◌≡◌, ◌<◌, ℕ, [], IfOk, OnOk, false, length, slice_index_or, suc, true};
ghost use Rattle.image_mem.specs.Contents.{Contents};
ghost use Rattle.rtr_types.specs.declared.params.Params.{Params};
ghost use Rattle.rv_core.specs.States.{starting};
ghost use Rattle.run_steps.specs.Ways.{IsSetUp};
ghost use Rattle.schedule_pick.specs.Choices.{choices_of};
ghost use Rattle.hunt_runs.specs.Courses.{EachEnabled, StandsAfter, course_of, gone_from, run_by};
ghost use Rattle.hunt_runs.specs.Directing.{IsOf};
ghost use Rattle.hunt_runs.specs.Ends.{EndsAs};
ghost use Rattle.hunt_runs.specs.Jumping.{spot_of};
ghost use Rattle.hunt_runs.specs.Ways.{gone_in};

use crate::director::{Director, Stores};
use crate::jumps::{Jumps, Spot};
use crate::machine::HuntedMachine;
use machine_ports::SteppedMachine;
use rtr_types::{Items, Params};
use run_steps::Made;
use std::alloc::Global;
use turn_policies::Policy;

/// A run by a policy that has ended: the choices that were made in it, the machine at its end, and the policy.
#[derive(Drop)]
pub struct Led<M, P> {
    /// The number of each step that was taken, among those enabled at that moment: the choice bytes of the run.
    pub choices: Items<u8>,
    /// The machine at the end of the run.
    pub machine: M,
    /// The policy, as it was at the last pick.
    pub policy: P,
}

/// Runs the image to its end by a policy. The only refusal is want of memory.
///
/// The choices are one function of the image, the parameters and the policy. The machine has come to what the machine's
/// run under exactly these choices comes to, whatever would follow them.
pub fn lead<M: HuntedMachine, P: Policy>(
    alloc: Global,
    machine: M,
    params: Params,
    policy: P,
) -> Made<Led<M, P>>
    requires { IsSetUp (M.image machine) params }
    ensures choices { IfOk result (λ led. led.choices
        ≡ (run_by (course_of M.seen_at M.changes_at (M.image machine) params) P.policy policy params.cores
        (M.most_steps params)).choices) }
    ensures policy { IfOk result (λ led. led.policy
        ≡ (run_by (course_of M.seen_at M.changes_at (M.image machine) params) P.policy policy params.cores
        (M.most_steps params)).directed.policy) }
    ensures enabled { IfOk result (λ led. EachEnabled (course_of M.seen_at M.changes_at (M.image machine) params)
        led.choices) }
    ensures ended { IfOk result (λ led. M.ended led.machine ≡ true) }
    ensures comes_to { IfOk result (λ led. (seed : ℕ) → EndsAs (M.cores led.machine) (M.words led.machine)
        (M.image machine).words (M.outcome (M.image machine) params (choices_of led.choices seed))) }
    ensures cores { IfOk result (λ led. length (M.cores led.machine) ≡ params.cores) }
    ensures image { IfOk result (λ led. M.image led.machine ≡ M.image machine) }
{
    let choices = no_choices(alloc)?;
    let machine = machine.restart(alloc, params)?;
    let jumps = Jumps::new(alloc, params.cores)?;
    let mut run = Run {
        machine,
        director: Director::new(policy, jumps),
        choices,
    };
    while !run.machine.done() {
        run.go_on()?;
    }
    run.machine.is_seen();
    run.machine.has_come_to();
    Ok(run.into_led())
}

/// For how many choices a run has room at its start. More are rare, and then the list grows.
const CHOICES_ROOM: usize = 256;

/// No choices yet, with room for those of most runs. The only refusal is want of memory.
fn no_choices(alloc: Global) -> Made<Items<u8>>
    ensures { IfOk result (λ choices. choices ≡ []) }
{
    Ok(Items::from_vec(Vec::with_capacity(alloc, CHOICES_ROOM)?))
}

/// A run by a policy on its way.
#[derive(Drop)]
struct Run<M, P> {
    machine: M,
    director: Director<P>,
    choices: Items<u8>,
}

impl<M: HuntedMachine, P: Policy> Run<M, P> {
    /// One step. The only refusal is want of memory.
    fn go_on(&mut self) -> Made<()>
        requires going { M.ended self.old.machine ≡ false }
        requires of { IsOf self.old.director (length (M.cores self.old.machine)) }
        ensures leads { (image : Contents) (params : Params) → OnOk result
            (StandsAfter M.stands image params self.old.machine self.old.choices
            → (most : ℕ)
            → gone_from (course_of M.seen_at M.changes_at image params) P.policy (suc most) (gone_in self.old)
            ≡ gone_from (course_of M.seen_at M.changes_at image params) P.policy most (gone_in self.new)) }
        ensures enabled { (image : Contents) (params : Params) → OnOk result
            (StandsAfter M.stands image params self.old.machine self.old.choices
            → EachEnabled (course_of M.seen_at M.changes_at image params) self.old.choices
            → EachEnabled (course_of M.seen_at M.changes_at image params) self.new.choices) }
        ensures stands { (image : Contents) (params : Params) → OnOk result
            (StandsAfter M.stands image params self.old.machine self.old.choices
            → StandsAfter M.stands image params self.new.machine self.new.choices) }
        ensures of { OnOk result (IsOf self.new.director (length (M.cores self.new.machine))) }
        ensures cores { OnOk result (length (M.cores self.new.machine) ≡ length (M.cores self.old.machine)) }
        ensures image { OnOk result (M.image self.new.machine ≡ M.image self.old.machine) }
        ensures nearer { OnOk result (M.left self.new.machine < M.left self.old.machine) }
    {
        self.machine.is_seen();
        let next = self.director.decide(&self.machine);
        let before = spot_of(&self.machine, next.core);
        let held = self.machine.stores(next.core);
        let changed = self.machine.take(next.number)?;
        self.choices.push(next.number as u8)?;
        let stores = Stores {
            before: held,
            after: self.machine.stores(next.core),
        };
        self.machine.is_seen();
        let after = self.machine.core(next.core);
        self.director
            .note(next.core, before, after, stores, changed);
        Ok(())
    }

    /// What the run has come to.
    fn into_led(self) -> Led<M, P>
        ensures { result ≡ record { choices = self.choices; machine = self.machine; policy = self.director.policy } }
    {
        let Run {
            machine,
            director,
            choices,
        } = self;
        Led {
            choices,
            machine,
            policy: director.into_policy(),
        }
    }
}

/// Where a core stands.
fn spot_of<M: SteppedMachine>(machine: &M, core: u8) -> Spot
    requires { core < length (M.cores machine.now) }
    ensures { result ≡ spot_of (slice_index_or (M.cores machine.now) core (starting 0 0)) }
{
    let core = machine.core(core);
    Spot {
        pc: core.pc,
        count: core.count,
    }
}
