//! The replay of a recording on several threads.
ghost use Rattle.std.specs.Prelude.{◌≡◌, ◌<◌, ◌≤◌, IfNone, IfOk, IfSome, length};
ghost use Rattle.atomic_table.specs.Seated.{TableId};
ghost use Rattle.race_log.specs.Validity.{Valid};
ghost use Rattle.replay_core.specs.Plans.{plan_of};
ghost use Rattle.replay_audit.specs.Determinate.{IsDeterminate};
ghost use Rattle.replay_table.specs.Seats.{Finished};
ghost use Rattle.replay_threads.specs.Groups.{AllAt, AllDone, AreAt, AreGrouped, AreInOrder};
ghost use Rattle.replay_threads.specs.Joints.{IsJointOf};

use crate::groups::{Group, give, no_groups, take_last};
use crate::rounds::rounds;
use crate::worker::Worker;
use race_log::Recording;
use replay_table::laws::an_end_was_played;
use replay_table::{Closed, CoreSeat, Gate, Job, ReplayTable};
use rtr_types::Which;
use std::alloc::{AllocError, Global};
use std::marker::Brand;
use std::sync::Wait;
use std::thread::Threads;
use touch_judge::RunOrder;

/// What a replay on several threads came to.
#[derive(Drop)]
pub enum Joint {
    /// The table was brought to its end, each core at its total.
    Ran(Closed),
    /// The recording isn't determinate by the log.
    Unsure,
}

/// Replays a recording by one of its logs on so many threads, without a replay beforehand. Core c is worked
/// by thread c mod `threads`. Where no thread can be made the turns are taken one after the other. It may
/// wait, and its promise holds if it returns.
///
/// `Ran` comes where the recording is determinate by the log, with the outcome of the low order and the
/// accesses of the play that led to it, and `Unsure` where it isn't.
pub fn replay_parallel<R: Threads + Wait + Sync, G: Gate>(
    rt: &R,
    alloc: Global,
    recording: &Recording,
    which: Which,
    threads: u32,
    gate: &G,
) -> Result<Joint, AllocError>
    requires valid { Valid recording.now }
    requires threads { (1 ≤ threads) × (threads ≤ 8) }
    ensures { IfOk result (IsJointOf which recording.now) }
{
    let Some(order) = RunOrder::of(alloc, recording, which)? else {
        return Ok(Joint::Unsure);
    };
    run::<Brand, R, G>(rt, alloc, recording, which, order, threads, gate)
}

/// The same for a job, whose log's low order is whole.
fn run<J: Job + Send + Sync, R: Threads + Wait + Sync, G: Gate>(
    rt: &R,
    alloc: Global,
    recording: &Recording,
    which: Which,
    order: RunOrder,
    threads: u32,
    gate: &G,
) -> Result<Joint, AllocError>
    requires valid { Valid J.recording }
    requires recording { recording.now ≡ J.recording }
    requires which { which ≡ J.which }
    requires order { (order.which ≡ J.which) × (order.recording ≡ J.recording) }
    requires threads { (1 ≤ threads) × (threads ≤ 8) }
    ensures { IfOk result (IsJointOf J.which J.recording) }
{
    let (table, seats) = ReplayTable::<J>::make(alloc, recording, which)?;
    let count = recording.params.cores.min(threads as u8);
    let groups = groups_of(alloc, recording, which, count, seats)?;
    let Some(seats) = worked(rt, alloc, recording.params.cores, &table, groups, gate)? else {
        return Ok(Joint::Unsure);
    };
    judged(alloc, order, table, seats)
}

/// The seats once all groups have worked them to their cores' totals, or none where a worker can't go on.
fn worked<J: Job + Send + Sync, R: Threads + Wait + Sync, G: Gate>(
    rt: &R,
    alloc: Global,
    cores: u8,
    table: &ReplayTable<J>,
    mut groups: Vec<Group<J>>,
    gate: &G,
) -> Result<Option<Vec<CoreSeat<J>>>, AllocError>
    requires some { 0 < length groups.items }
    requires cores { cores ≡ length J.recording.totals }
    requires grouped { AreGrouped (length groups.items) cores groups.items }
    requires at { AreAt table.now groups.items }
    ensures seats { IfOk result (λ seats. IfSome seats (λ all.
        Finished (plan_of J.which J.recording) table.now all.items)) }
    ensures unsure { IfOk result (λ seats. IfNone seats (IsDeterminate J.which J.recording → ⊥)) }
{
    if !rounds(rt, table, groups.as_mut_slice(), gate)? {
        return Ok(None);
    }
    let seats = seats_of(alloc, groups, cores)?;
    Ok(Some(seats))
}

/// What the table comes to once it is closed with its seats, which are at their cores' totals.
fn judged<J: Job>(
    alloc: Global,
    order: RunOrder,
    table: ReplayTable<J>,
    seats: Vec<CoreSeat<J>>,
) -> Result<Joint, AllocError>
    requires valid { Valid J.recording }
    requires order { (order.which ≡ J.which) × (order.recording ≡ J.recording) }
    requires seats { Finished (plan_of J.which J.recording) table seats.items }
    ensures { IfOk result (IsJointOf J.which J.recording) }
{
    let Ok(closed) = table.close(alloc, seats) else {
        return Err(AllocError);
    };
    an_end_was_played();
    if !order.judge(alloc, closed.touched())? {
        return Ok(Joint::Unsure);
    }
    Ok(Joint::Ran(closed))
}

/// The workers of the seats, in so many groups: core c in group c mod `count`.
fn groups_of<'a, J: Job>(
    alloc: Global,
    recording: &'a Recording,
    which: Which,
    count: u8,
    mut seats: Vec<CoreSeat<J>>,
) -> Result<Vec<Group<'a, J>>, AllocError>
    requires valid { Valid J.recording }
    requires recording { recording.now ≡ J.recording }
    requires which { which ≡ J.which }
    requires count { 0 < count }
    requires all { length seats.items ≡ length J.recording.totals }
    requires order { AreInOrder seats.items }
    ensures grouped { IfOk result (λ groups. AreGrouped count (length J.recording.totals) groups.items) }
    ensures at { IfOk result (λ groups. (table : TableId) → AllAt table seats.items → AreAt table groups.items) }
{
    let mut groups = no_groups(alloc, count)?;
    for core in 0..recording.params.cores {
        let seat = seats.remove(0);
        let worker = Worker::new(recording, which, seat);
        give(groups.as_mut_slice(), (core % count) as usize, worker)?;
    }
    Ok(groups)
}

/// The seats of the workers, core 0 first.
fn seats_of<J: Job>(
    alloc: Global,
    mut groups: Vec<Group<J>>,
    cores: u8,
) -> Result<Vec<CoreSeat<J>>, AllocError>
    requires count { 0 < length groups.items }
    requires cores { cores ≡ length J.recording.totals }
    requires grouped { AreGrouped (length groups.items) cores groups.items }
    requires done { AllDone J.recording groups.items }
    ensures { IfOk result (λ seats. (table : TableId) → AreAt table groups.entry.items →
        Finished (plan_of J.which J.recording) table seats.items) }
{
    let count = groups.len();
    let mut seats = Vec::new(alloc);
    let mut core = cores as usize;
    while core > 0 {
        core -= 1;
        let Some(worker) = take_last(groups.as_mut_slice(), core % count) else {
            unreachable!()
        };
        seats.insert(0, worker.into_seat())?;
    }
    Ok(seats)
}
