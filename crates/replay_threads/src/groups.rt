//! Groups of workers. The workers of a group take their turns one after the other, and the groups work at
//! the same time. A pass, in which each worker of a group takes one turn, is the group's round: it makes as
//! many of them as it gets on by, and only then are the threads given up.
ghost use Rattle.std.specs.Prelude.{◌≡◌, ◌≢◌, ◌<◌, ◌⊎◌, ℕ, [], ◌∷◌, ◌++◌, All, length, slice_index_or};
ghost use Rattle.std.specs.Prelude.{IfNone, IfOk, IfSome, OnOk};
ghost use Rattle.replay_audit.specs.Determinate.{IsDeterminate};
ghost use Rattle.replay_threads.specs.declared.groups.Stand.TheVariants.{Ended as AllEnded, Unsure as OneUnsure};
ghost use Rattle.replay_threads.specs.declared.groups.Stand.TheVariants.{Waiting as OneWaits, OutOfMemory as NoMemory};
ghost use Rattle.replay_threads.specs.Groups.{AllAt, IsGivenTo, IsOpenAt, Turned, stand_of, workers_at};

use crate::turns::Turn;
use crate::worker::Worker;
use replay_table::{Gate, Job, ReplayTable};
use std::alloc::{AllocError, Global};
use std::marker::Model;
use std::thread;
use std::thread::Threads;

/// After how many passes in a row a group gives its thread up in which none of its workers retired an
/// instruction or saw that another core got on. The round then ends, and the next one serves a machine on which no
/// thread can be made.
const IDLE_PASSES: u32 = 256;

/// How the turns of a pass ended, taken together.
#[derive(Clone, Copy)]
pub(crate) enum Stand {
    /// All cores are at their totals.
    Ended,
    /// One waits.
    Waiting,
    /// One can't go on.
    Unsure,
    /// Memory ran out.
    OutOfMemory,
}

impl Stand {
    /// The stand of one worker after its turn.
    fn of(turn: Result<Turn, AllocError>) -> Stand
        ensures { result ≡ stand_of turn }
    {
        match turn {
            Ok(Turn::Ended) => Stand::Ended,
            Ok(Turn::Waiting { .. }) => Stand::Waiting,
            Ok(Turn::Short | Turn::Raced) => Stand::Unsure,
            Err(_) => Stand::OutOfMemory,
        }
    }

    /// Both together.
    fn and(self, other: Stand) -> Stand
        ensures ended { result ≡ AllEnded → (self ≡ AllEnded) × (other ≡ AllEnded) }
        ensures unsure { result ≡ OneUnsure → (self ≡ OneUnsure) ⊎ (other ≡ OneUnsure) }
        ensures waiting { result ≡ OneWaits →
            ((self ≡ OneWaits) ⊎ (other ≡ OneWaits)) × (self ≢ NoMemory) × (other ≢ NoMemory) }
    {
        match (self, other) {
            (Stand::OutOfMemory, _) | (_, Stand::OutOfMemory) => Stand::OutOfMemory,
            (Stand::Unsure, _) | (_, Stand::Unsure) => Stand::Unsure,
            (Stand::Waiting, _) | (_, Stand::Waiting) => Stand::Waiting,
            (Stand::Ended, Stand::Ended) => Stand::Ended,
        }
    }
}

/// Workers that one thread works, and how their last turns ended. Contracts see both.
#[derive(Drop)]
pub(crate) struct Group<'a, J: Job> {
    workers: Vec<Worker<'a, J>>,
    stand: Stand,
}

impl<'a, J: Job> Model for Group<'a, J> {
    ghost use Rattle.replay_threads.specs.Groups.{Grouped};

    ghost Value = { Grouped };

    ghost view = { λ g. record { workers = g.workers.items; stand = g.stand } };
}

impl<'a, J: Job> Group<'a, J> {
    /// Takes passes until none of the workers waits, or until many in a row brought nothing. After each of
    /// these another thread may have the processor.
    #[tactic(auto, using(crate::proofs::DealtWorkers::turned_then))]
    fn work<G: Gate>(&mut self, table: &ReplayTable<J>, gate: &G)
        requires { AllAt table.now self.old.workers }
        ensures { Turned J.which J.recording table.now self.old.workers self.new.stand self.new.workers }
    {
        self.pass(table, gate);
        let mut idle: u32 = 0;
        let mut before = self.headway();
        for _pass in 1..u32::MAX {
            if idle >= IDLE_PASSES || !self.waits() {
                return;
            }
            self.pass(table, gate);
            let now = self.headway();
            if now > before {
                idle = 0;
            } else {
                idle = idle.saturating_add(1);
                thread::yield_now();
            }
            before = now;
        }
    }

    /// Each worker takes a turn, one after the other.
    fn pass<G: Gate>(&mut self, table: &ReplayTable<J>, gate: &G)
        requires { AllAt table.now self.old.workers }
        ensures { Turned J.which J.recording table.now self.old.workers self.new.stand self.new.workers }
    {
        self.stand = turns_of(table, self.workers.as_mut_slice(), gate);
    }

    /// Whether a worker waits and none has come to an end of another kind.
    fn waits(&self) -> bool {
        matches!(self.stand, Stand::Waiting)
    }

    /// How far the workers' cores have come, and those that they wait for, as far as they have seen.
    fn headway(&self) -> u64 {
        let mut sum: u64 = 0;
        for worker in self.workers.as_slice() {
            sum = sum.wrapping_add(worker.headway());
        }
        sum
    }

    /// Puts a worker at the end.
    fn push(&mut self, worker: Worker<'a, J>) -> Result<(), AllocError>
        ensures { OnOk result (self.new.workers ≡ self.old.workers ++ worker.entry ∷ []) }
    {
        self.workers.push(worker)?;
        Ok(())
    }

    /// Takes the last worker.
    fn pop(&mut self) -> Option<Worker<'a, J>>
        ensures some { IfSome result (λ worker. self.old.workers ≡ self.new.workers ++ worker ∷ []) }
        ensures none { IfNone result (self.old.workers ≡ []) }
    {
        self.workers.pop()
    }
}

/// Each worker takes a turn, one after the other.
fn turns_of<J: Job, G: Gate>(table: &ReplayTable<J>, workers: &mut [Worker<J>], gate: &G) -> Stand
    requires { AllAt table.now workers.old }
    ensures { Turned J.which J.recording table.now workers.old result workers.new }
{
    let mut stand = Stand::Ended;
    for worker in workers.iter_mut() {
        stand = stand.and(Stand::of(worker.turn(table, gate)));
    }
    stand
}

/// Each group works as long as it gets on, each in a thread of its own where one can be made.
pub(crate) fn one_round<J: Job + Send + Sync, R: Threads + Sync, G: Gate>(
    rt: &R,
    table: &ReplayTable<J>,
    groups: &mut [Group<J>],
    gate: &G,
)
    requires { All (λ g. AllAt table.now g.workers) groups.old }
    ensures all { length groups.new ≡ length groups.old }
    ensures each { (k : ℕ) (d : _) → k < length groups.old →
        Turned J.which J.recording table.now (slice_index_or groups.old k d).workers
        (slice_index_or groups.new k d).stand (slice_index_or groups.new k d).workers }
{
    if groups.is_empty() {
        return;
    }
    let threads = groups.len();
    thread::for_each_mut(
        rt,
        groups,
        threads,
        &|_, group: &mut Group<J>|
            requires { AllAt table.now group.now.workers }
            ensures { Turned J.which J.recording table.entry.now group.entry.now.workers group.exit.now.stand
                group.exit.now.workers }
        { group.work(table, gate) },
    );
}

/// How the groups stand, taken together.
pub(crate) fn stand_of_all<J: Job>(groups: &[Group<J>]) -> Stand
    requires { All (λ g. IsOpenAt J.which J.recording g.stand) groups.now }
    ensures ended { result ≡ AllEnded → All (λ g. g.stand ≡ AllEnded) groups.now }
    ensures unsure { IsOpenAt J.which J.recording result }
{
    let mut stand = Stand::Ended;
    for group in groups {
        stand = stand.and(group.stand);
    }
    stand
}

/// So many groups without workers.
pub(crate) fn no_groups<'a, J: Job>(
    alloc: Global,
    count: u8,
) -> Result<Vec<Group<'a, J>>, AllocError>
    ensures all { IfOk result (λ groups. length groups.items ≡ count) }
    ensures none { IfOk result (λ groups. (g : ℕ) → workers_at groups.items g ≡ []) }
{
    let mut groups = Vec::new(alloc);
    for made in 0..count {
        groups.push(Group {
            workers: Vec::new(alloc),
            stand: Stand::Ended,
        })?;
    }
    Ok(groups)
}

/// Puts a worker at the end of a group.
pub(crate) fn give<'a, J: Job>(
    groups: &mut [Group<'a, J>],
    to: usize,
    worker: Worker<'a, J>,
) -> Result<(), AllocError>
    requires { to < length groups.old }
    ensures { IfOk result (λ done. IsGivenTo groups.old to worker.entry groups.new) }
{
    groups[to].push(worker)
}

/// Takes a group's last worker.
pub(crate) fn take_last<'a, J: Job>(
    groups: &mut [Group<'a, J>],
    from: usize,
) -> Option<Worker<'a, J>>
    requires { from < length groups.old }
    ensures some { IfSome result (λ worker. IsGivenTo groups.new from worker groups.old) }
    ensures none { IfNone result (workers_at groups.old from ≡ []) }
{
    groups[from].pop()
}
