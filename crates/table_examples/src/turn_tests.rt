//! The turns of two workers, one after the other on one thread, and at the same time on two.
ghost use Rattle.std.specs.Prelude.{◌≡◌, IfOk, IfSome};
ghost use Rattle.race_log.specs.Validity.{Valid};
ghost use Rattle.rtr_types.specs.declared.pairs.Which.TheVariants.{Reduced};

use crate::recordings::{IN_TURN, MANY_SUMS, ONE_TOO_MANY};
use crate::seats::{close_pair, table_of_two};
use log_codec::read;
use race_log::Recording;
use replay_table::{Job, ReplayTable};
use replay_threads::{OpenGate, Turn, Worker};
use rtr_types::Which;
use std::alloc::{AllocError, Global};
use std::marker::Brand;
use std::process::Abort;
use std::test::Fail;
use std::thread;
use std::thread::Threads;

/// How a turn ended.
#[derive(Clone, Copy, PartialEq, Eq)]
enum Ending {
    Ended,
    Waiting { core: u8, count: u32 },
    Short,
    Raced,
}

fn how_ended(turn: Turn) -> Ending {
    match turn {
        Turn::Ended => Ending::Ended,
        Turn::Waiting { of } => Ending::Waiting {
            core: of.core,
            count: of.count,
        },
        Turn::Short => Ending::Short,
        Turn::Raced => Ending::Raced,
    }
}

/// How four turns of two workers ended, the second worker's first, and whether each was at its total before
/// and after them.
#[derive(Clone, Copy, PartialEq, Eq)]
struct Turns {
    before: [bool; 2],
    endings: [Ending; 4],
    after: [bool; 2],
}

/// The workers take two turns each, the second one first.
fn take_turns<J: Job>(
    table: &ReplayTable<J>,
    first: &mut Worker<J>,
    second: &mut Worker<J>,
) -> Result<Turns, AllocError>
    requires first { first.old.table_id ≡ table.now }
    requires second { second.old.table_id ≡ table.now }
{
    let before = [first.ended(), second.ended()];
    let one = how_ended(second.turn(table, &OpenGate)?);
    let two = how_ended(first.turn(table, &OpenGate)?);
    let three = how_ended(second.turn(table, &OpenGate)?);
    let four = how_ended(first.turn(table, &OpenGate)?);
    Ok(Turns {
        before,
        endings: [one, two, three, four],
        after: [first.ended(), second.ended()],
    })
}

/// The table of a recording of two cores, with their workers.
fn workers_of_two<'a, J: Job>(
    alloc: Global,
    recording: &'a Recording,
) -> Result<Option<(ReplayTable<'a, J>, Worker<'a, J>, Worker<'a, J>)>, AllocError>
    requires { Valid J.recording × (recording.now ≡ J.recording) × (J.which ≡ Reduced) }
    ensures { IfOk result (λ made. IfSome made (λ two. (two.1.table_id ≡ two.0) × (two.2.table_id ≡ two.0))) }
{
    let Some((table, first, second)) = table_of_two::<J>(alloc, recording, Which::Reduced)? else {
        return Ok(None);
    };
    let first = Worker::new(recording, Which::Reduced, first);
    let second = Worker::new(recording, Which::Reduced, second);
    Ok(Some((table, first, second)))
}

/// The turns of a recording's two workers.
fn turns_by<J: Job>(alloc: Global, recording: &Recording) -> Result<Option<Turns>, AllocError>
    requires { Valid J.recording × (recording.now ≡ J.recording) × (J.which ≡ Reduced) }
{
    let Some((table, mut first, mut second)) = workers_of_two::<J>(alloc, recording)? else {
        return Ok(None);
    };
    let turns = take_turns(&table, &mut first, &mut second)?;
    Ok(Some(turns))
}

/// The two workers of the recording with these bytes take such turns.
fn turns_are(rt: &impl Abort, alloc: Global, bytes: &[u8], turns: Turns) -> Result<(), Fail> {
    let recording = read(alloc, bytes)?;
    let taken = turns_by::<Brand>(alloc, &recording)?;
    assert!(rt; taken == Some(turns));
    Ok(())
}

#[test]
fn workers_wait_for_each_other(rt: HostRuntime) -> Result<(), Fail> {
    let turns = Turns {
        before: [false, false],
        endings: [
            Ending::Waiting { core: 0, count: 3 },
            Ending::Waiting { core: 1, count: 3 },
            Ending::Ended,
            Ending::Ended,
        ],
        after: [true, true],
    };
    turns_are(&rt, rt.alloc(), &IN_TURN, turns)
}

#[test]
fn a_program_falls_short(rt: HostRuntime) -> Result<(), Fail> {
    let turns = Turns {
        before: [false, false],
        endings: [Ending::Ended, Ending::Short, Ending::Ended, Ending::Short],
        after: [false, true],
    };
    turns_are(&rt, rt.alloc(), &ONE_TOO_MANY, turns)
}

/// Turns until the worker's core is at its total: how many of them were raced. To each of those belongs a store of
/// the other core, so that they come to an end.
fn until_ended<J: Job>(table: &ReplayTable<J>, worker: &mut Worker<J>) -> Result<u32, AllocError>
    requires { worker.old.table_id ≡ table.now }
    ensures { worker.new.table_id ≡ worker.old.table_id }
{
    for raced in 0..u32::MAX {
        if how_ended(worker.turn(table, &OpenGate)?) != Ending::Raced {
            return Ok(raced);
        }
    }
    Ok(u32::MAX)
}

/// The workers take their turns at the same time: how many of either's were raced.
fn at_once<J: Job + Send + Sync, R: Threads + Sync>(
    rt: &R,
    table: &ReplayTable<J>,
    first: &mut Worker<J>,
    second: &mut Worker<J>,
) -> Result<[u32; 2], AllocError>
    requires first { first.old.table_id ≡ table.now }
    requires second { second.old.table_id ≡ table.now }
    ensures first { first.new.table_id ≡ first.old.table_id }
    ensures second { second.new.table_id ≡ second.old.table_id }
{
    let (one, two) = thread::join_mut(
        rt,
        &mut ||
            requires { first.now.table_id ≡ table.now }
            ensures { first.exit.now.table_id ≡ first.entry.now.table_id }
        { until_ended(table, first) },
        &mut ||
            requires { second.now.table_id ≡ table.now }
            ensures { second.exit.now.table_id ≡ second.entry.now.table_id }
        { until_ended(table, second) },
    );
    Ok([one?, two?])
}

/// How often turns were raced of two workers that share a word, and what it holds once both are at their totals.
#[derive(Clone, Copy, PartialEq, Eq)]
struct Race {
    raced: [u32; 2],
    word: Option<u32>,
}

/// The race of a recording's two workers for word 8.
fn race_by<J: Job + Send + Sync, R: Threads + Sync>(
    rt: &R,
    alloc: Global,
    recording: &Recording,
) -> Result<Option<Race>, AllocError>
    requires { Valid J.recording × (recording.now ≡ J.recording) × (J.which ≡ Reduced) }
{
    let Some((table, mut first, mut second)) = workers_of_two::<J>(alloc, recording)? else {
        return Ok(None);
    };
    let raced = at_once(rt, &table, &mut first, &mut second)?;
    let closed = close_pair(
        alloc,
        table,
        recording,
        first.into_seat(),
        second.into_seat(),
    )?;
    let word = closed.and_then(|closed| closed.outcome().words.as_slice().get(8).copied());
    Ok(Some(Race { raced, word }))
}

// Each of the 99,998 additions is of 5 and none is lost, however often a turn is raced and taken again. That one is
// raced needs the other core's store between its two steps, which comes soon where both work at the same time.
#[test]
fn a_raced_turn_is_taken_again(rt: HostRuntime) -> Result<(), Fail> {
    let recording = read(rt.alloc(), &MANY_SUMS)?;
    let mut raced = false;
    for _attempt in 0..200 {
        let race = race_by::<Brand, _>(&rt, rt.alloc(), &recording)?;
        assert!(rt; race.and_then(|race| race.word) == Some(499_990));
        raced = race.is_some_and(|race| race.raced != [0, 0]);
        if raced {
            break;
        }
    }
    assert!(rt; raced);
    Ok(())
}
