//! Whom the run of a number picks.
ghost use Rattle.std.specs.Prelude.{◌≡◌, ℕ, IfOk, false};
ghost use Rattle.run_steps.specs.Ways.{IsSetUp};
ghost use Rattle.turn_policies.specs.Named.{is_by_seed};
ghost use Rattle.turn_policies.specs.declared.named.Numbered.{Numbered};
ghost use Rattle.hunt_runs.specs.Counted.{Picks};
ghost use Rattle.hunt_runs.specs.Courses.{Course, course_of};
ghost use Rattle.hunt_runs.specs.Numbering.{straight_picks};
ghost use Rattle.hunt_runs.specs.Picked.{PicksMakeTheRun, picks_numbered, picks_of_run};

use crate::led::{Led, lead};
use crate::machine::HuntedMachine;
use crate::noting::Noting;
use crate::numbered::Counted;
use rtr_types::{Items, Params};
use run_steps::Made;
use std::alloc::Global;
use turn_lists::Actor;
use turn_policies::{ByTurns, Numbered, Policy, Walk};

/// Makes the run of this number again, of an image of whose straight run these are the counts, and answers whom it
/// picks, in order: the first `room` of them. A run by a seed picks nobody. The only refusal is want of memory.
pub fn picks_numbered<M: HuntedMachine>(
    alloc: Global,
    machine: M,
    params: Params,
    counted: &Counted,
    number: Numbered,
    room: usize,
) -> Made<Items<Actor>>
    requires set_up { IsSetUp (M.image machine) params }
    requires counts { counted.now ≡ straight_picks (course_of M.seen_at M.changes_at (M.image machine) params) M.buffers
        params.cores (M.most_steps params) }
    ensures { IfOk result (λ picks. picks ≡ picks_numbered (course_of M.seen_at M.changes_at (M.image machine) params)
        counted.now number room params.cores (M.most_steps params)) }
{
    match number {
        Numbered::Seed(_) => Ok(Items::new(alloc)),
        Numbered::Few(number) => {
            let turns = counted.turns(alloc, number)?;
            picks_led(alloc, machine, params, ByTurns::new(turns), room)
        }
        Numbered::Walk(number) => picks_led(alloc, machine, params, Walk::new(number), room),
        Numbered::Ranked(depth, number) => {
            let ranks = counted.ranks(alloc, depth, number)?;
            picks_led(alloc, machine, params, ranks, room)
        }
    }
}

/// Whom the policy picks in its run: the first `room` of them. The only refusal is want of memory.
fn picks_led<M: HuntedMachine, P: Policy>(
    alloc: Global,
    machine: M,
    params: Params,
    policy: P,
    room: usize,
) -> Made<Items<Actor>>
    requires { IsSetUp (M.image machine) params }
    ensures { IfOk result (λ picks. picks ≡ picks_of_run (course_of M.seen_at M.changes_at (M.image machine) params)
        P.policy policy room params.cores (M.most_steps params)) }
{
    let noting = Noting::new(alloc, policy, room)?;
    let led = lead::<M, Noting<P>>(alloc, machine, params, noting)?;
    let Led {
        choices: _choices,
        machine: _machine,
        policy,
    } = led;
    Ok(policy.into_picks())
}

/// The turns in which the run of a number picks make just this run: a law. No policy picks in a run by a seed.
pub fn picks_make_the_run()
    ensures { (course : Course) (picks : Picks) (number : Numbered) (cores most : ℕ) → is_by_seed number ≡ false
        → PicksMakeTheRun course picks number cores most }
{}
