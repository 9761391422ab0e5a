//! Runs by number, and by a list of turns.
ghost use Rattle.std.specs.Prelude.{◌≡◌, ℕ, [], IfOk, length, map, true};
ghost use Rattle.run_steps.specs.Ways.{IsSetUp};
ghost use Rattle.schedule_pick.specs.Choices.{choices_of};
ghost use Rattle.turn_lists.specs.Few.{few};
ghost use Rattle.turn_policies.specs.Ranked.{ranked_begun};
ghost use Rattle.hunt_runs.specs.Courses.{course_of};
ghost use Rattle.hunt_runs.specs.Ends.{EndsAs};
ghost use Rattle.hunt_runs.specs.Numbering.{choices_by_turns, choices_numbered, choices_of_run, straight_picks};

use crate::counted::StraightCounts;
use crate::led::{Led, lead};
use crate::machine::HuntedMachine;
use rtr_types::{Items, Params};
use run_steps::Made;
use schedule_pick::Schedule;
use std::alloc::Global;
use std::marker::Model;
use turn_lists::{Actor, FewLists, Turn};
use turn_policies::{ByTurns, Numbered, Policy, Ranks, Walk};

/// How often the straight run of an image picks each actor, and all of them: what runs by number rest on.
pub struct Counted {
    lists: FewLists,
    actors: Vec<Actor>,
    all: u32,
}

impl Drop for Counted {
    fn drop(self) {
        let Counted {
            lists: _lists,
            actors: _actors,
            all: _all,
        } = self;
    }
}

impl Model for Counted {
    ghost use Rattle.std.specs.Prelude.{◌≡◌, map};
    ghost use Rattle.hunt_runs.specs.Counted.{Picks};

    ghost Value = { Picks };

    ghost view = { λ s. record { each = s.lists; all = s.all } };

    ghost invariant = { λ s. s.actors.items ≡ map (λ t. t.actor) s.lists };
}

/// The end of a run, and under which choices it was made: those noted, and after them those of the generator with the
/// seed.
#[derive(Drop)]
pub struct Ended<M> {
    /// The choice bytes; none of a run by its seed alone.
    pub choices: Items<u8>,
    /// The seed: 0 but for a run by its seed alone.
    pub seed: u64,
    /// The machine at the end of the run.
    pub machine: M,
}

impl<M: Drop> Ended<M> {
    /// The choice bytes.
    pub fn into_choices(self) -> Items<u8>
        ensures { result ≡ self.choices }
    {
        let Ended {
            choices,
            seed: _seed,
            machine: _machine,
        } = self;
        choices
    }

    /// The machine.
    pub fn into_machine(self) -> M
        ensures { result ≡ self.machine }
    {
        let Ended {
            choices: _choices,
            seed: _seed,
            machine,
        } = self;
        machine
    }
}

/// What was counted in the straight run, and the machine that made it.
#[derive(Drop)]
pub struct Counting<M> {
    /// How often each actor was picked.
    pub counted: Counted,
    /// The machine at the end of the run.
    pub machine: M,
}

/// Makes the straight run of the image, and counts. The only refusal is want of memory.
pub fn straight_counts<M: HuntedMachine>(
    alloc: Global,
    machine: M,
    params: Params,
) -> Made<Counting<M>>
    requires { IsSetUp (M.image machine) params }
    ensures counted { IfOk result (λ counting. counting.counted ≡ straight_picks
        (course_of M.seen_at M.changes_at (M.image machine) params) M.buffers params.cores (M.most_steps params)) }
    ensures image { IfOk result (λ counting. M.image counting.machine ≡ M.image machine) }
{
    let policy = StraightCounts::new(alloc, M::has_buffers(), params.cores)?;
    let led = lead::<M, StraightCounts>(alloc, machine, params, policy)?;
    let Led {
        choices: _choices,
        machine,
        policy,
    } = led;
    Ok(Counting {
        counted: Counted::of(alloc, &policy)?,
        machine,
    })
}

impl Counted {
    /// What a straight run counted. The only refusal is want of memory.
    fn of(alloc: Global, counts: &StraightCounts) -> Made<Counted>
        ensures { IfOk result (λ counted. counted ≡ counts.now.picks) }
    {
        let picks = counts.picks.as_slice();
        let lists = FewLists::new(alloc, picks)?;
        Ok(Counted {
            lists,
            actors: actors_of(alloc, picks)?,
            all: counts.all,
        })
    }

    /// The list of few turns of this number. The only refusal is want of memory.
    pub fn turns(&self, alloc: Global, number: u64) -> Made<Items<Turn>>
        ensures { IfOk result (λ turns. turns ≡ few self.now.each number) }
    {
        self.lists.list(alloc, number)
    }

    /// The policy of ranks of this number, for bugs of this depth. The only refusal is want of memory.
    pub(crate) fn ranks(&self, alloc: Global, depth: u8, number: u64) -> Made<Ranks>
        ensures { IfOk result (λ ranks. ranks
            ≡ ranked_begun (map (λ t. t.actor) self.now.each) self.now.all depth number) }
    {
        let actors = self.actors.as_slice();
        let ranks = Ranks::new(alloc, actors, self.all, depth, number)?;
        Ok(ranks)
    }
}

/// The actors of turns. The only refusal is want of memory.
fn actors_of(alloc: Global, turns: &[Turn]) -> Made<Vec<Actor>>
    ensures { IfOk result (λ actors. actors.items ≡ map (λ t. t.actor) turns.now) }
{
    let mut actors = Vec::with_capacity(alloc, turns.len())?;
    for turn in turns {
        actors.push(turn.actor)?;
    }
    Ok(actors)
}

/// Makes the run of a number of the image whose straight run has these counts. The only refusal is want of memory.
pub fn run_numbered<M: HuntedMachine>(
    alloc: Global,
    machine: M,
    params: Params,
    counted: &Counted,
    numbered: Numbered,
) -> Made<Ended<M>>
    requires { IsSetUp (M.image machine) params }
    ensures choices { IfOk result (λ ended. choices_of ended.choices ended.seed
        ≡ choices_numbered (course_of M.seen_at M.changes_at (M.image machine) params) counted.now numbered params.cores
        (M.most_steps params)) }
    ensures ended { IfOk result (λ ended. M.ended ended.machine ≡ true) }
    ensures comes_to { IfOk result (λ ended. EndsAs (M.cores ended.machine) (M.words ended.machine)
        (M.image machine).words (M.outcome (M.image machine) params (choices_of ended.choices ended.seed))) }
    ensures cores { IfOk result (λ ended. length (M.cores ended.machine) ≡ params.cores) }
    ensures image { IfOk result (λ ended. M.image ended.machine ≡ M.image machine) }
{
    match numbered {
        Numbered::Seed(seed) => run_of_seed(alloc, machine, params, seed),
        Numbered::Few(number) => {
            let turns = counted.turns(alloc, number)?;
            run_of_turns(alloc, machine, params, turns)
        }
        Numbered::Walk(number) => run_led(alloc, machine, params, Walk::new(number)),
        Numbered::Ranked(depth, number) => {
            let ranks = counted.ranks(alloc, depth, number)?;
            run_led(alloc, machine, params, ranks)
        }
    }
}

/// Makes the run of these turns. The only refusal is want of memory.
pub fn run_of_turns<M: HuntedMachine>(
    alloc: Global,
    machine: M,
    params: Params,
    turns: Items<Turn>,
) -> Made<Ended<M>>
    requires { IsSetUp (M.image machine) params }
    ensures choices { IfOk result (λ ended. choices_of ended.choices ended.seed
        ≡ choices_by_turns (course_of M.seen_at M.changes_at (M.image machine) params) turns params.cores
        (M.most_steps params)) }
    ensures ended { IfOk result (λ ended. M.ended ended.machine ≡ true) }
    ensures comes_to { IfOk result (λ ended. EndsAs (M.cores ended.machine) (M.words ended.machine)
        (M.image machine).words (M.outcome (M.image machine) params (choices_of ended.choices ended.seed))) }
    ensures cores { IfOk result (λ ended. length (M.cores ended.machine) ≡ params.cores) }
    ensures image { IfOk result (λ ended. M.image ended.machine ≡ M.image machine) }
{
    run_led(alloc, machine, params, ByTurns::new(turns))
}

/// Makes the run by a policy. The only refusal is want of memory.
fn run_led<M: HuntedMachine, P: Policy>(
    alloc: Global,
    machine: M,
    params: Params,
    policy: P,
) -> Made<Ended<M>>
    requires { IsSetUp (M.image machine) params }
    ensures choices { IfOk result (λ ended. choices_of ended.choices ended.seed
        ≡ choices_of_run (course_of M.seen_at M.changes_at (M.image machine) params) P.policy policy params.cores
        (M.most_steps params)) }
    ensures ended { IfOk result (λ ended. M.ended ended.machine ≡ true) }
    ensures comes_to { IfOk result (λ ended. EndsAs (M.cores ended.machine) (M.words ended.machine)
        (M.image machine).words (M.outcome (M.image machine) params (choices_of ended.choices ended.seed))) }
    ensures cores { IfOk result (λ ended. length (M.cores ended.machine) ≡ params.cores) }
    ensures image { IfOk result (λ ended. M.image ended.machine ≡ M.image machine) }
{
    let led = lead::<M, P>(alloc, machine, params, policy)?;
    let Led {
        choices,
        machine,
        policy: _policy,
    } = led;
    Ok(Ended {
        choices,
        seed: 0,
        machine,
    })
}

/// Makes the run of a seed. The only refusal is want of memory.
fn run_of_seed<M: HuntedMachine>(
    alloc: Global,
    machine: M,
    params: Params,
    seed: u64,
) -> Made<Ended<M>>
    requires { IsSetUp (M.image machine) params }
    ensures choices { IfOk result (λ ended. choices_of ended.choices ended.seed ≡ choices_of [] seed) }
    ensures ended { IfOk result (λ ended. M.ended ended.machine ≡ true) }
    ensures comes_to { IfOk result (λ ended. EndsAs (M.cores ended.machine) (M.words ended.machine)
        (M.image machine).words (M.outcome (M.image machine) params (choices_of ended.choices ended.seed))) }
    ensures cores { IfOk result (λ ended. length (M.cores ended.machine) ≡ params.cores) }
    ensures image { IfOk result (λ ended. M.image ended.machine ≡ M.image machine) }
{
    let mut machine = machine.restart(alloc, params)?;
    let mut schedule = Schedule::new(Vec::new(alloc), seed);
    while !machine.done() {
        let _changed = machine.take(schedule.next())?;
    }
    machine.has_come_to();
    Ok(Ended {
        choices: Items::new(alloc),
        seed,
        machine,
    })
}
