//! Two seats, turn by turn, and in two threads.
ghost use Rattle.std.specs.Prelude.{◌≡◌, ◌<◌, All, length};
ghost use Rattle.race_log.specs.Validity.{Valid};
ghost use Rattle.rtr_types.specs.declared.pairs.Which.TheVariants.{Reduced, Regulated};

use crate::recordings::{IN_TURN, TWO_BYTES, TWO_SUMS};
use crate::seats::{close_pair, pair, table_of_two};
use log_codec::read;
use race_log::Recording;
use replay_table::{Closed, CoreSeat, Job, Raced, ReplayTable};
use rtr_types::Which;
use rv_core::{Need, Outcome};
use std::alloc::{AllocError, Global};
use std::marker::Brand;
use std::process::Abort;
use std::test::Fail;
use std::thread;
use std::thread::Threads;

/// What a seat did.
#[derive(Clone, Copy, PartialEq, Eq)]
enum Did {
    Ended,
    Looked,
    Local,
    Loaded(u32),
    Held(u32),
    Stored,
    Lost { held: u32, found: u32 },
}

/// One instruction of the seat's core where the seat is ready, the holding before it, or else a look at what
/// it waits for.
fn step<J: Job>(
    table: &ReplayTable<J>,
    seat: &mut CoreSeat<J>,
    recording: &Recording,
) -> Result<Did, AllocError>
    requires recording { recording.now ≡ J.recording }
    requires table { seat.old.table_id ≡ table.now }
    ensures { seat.new.table_id ≡ seat.old.table_id }
{
    seat.make_room()?;
    let core = *seat.core();
    if core.count() >= recording.totals.as_slice()[core.id() as usize] {
        return Ok(Did::Ended);
    }
    if let Some(of) = seat.unmet() {
        table.seen_done(seat, of.core);
        return Ok(Did::Looked);
    }
    match seat.need() {
        Need::Local => {
            table.local(seat);
            Ok(Did::Local)
        }
        Need::Load { .. } => Ok(Did::Loaded(table.load_word(seat))),
        Need::Store { whole, .. } => {
            if !whole && seat.held().is_none() {
                return Ok(Did::Held(table.hold_word(seat)));
            }
            Ok(stored(table.store_word(seat)))
        }
        Need::Amo { .. } => {
            if seat.held().is_none() {
                return Ok(Did::Held(table.hold_word(seat)));
            }
            Ok(stored(table.store_word(seat)))
        }
        Need::Done(_) => Ok(Did::Ended),
    }
}

fn stored(answer: Result<(), Raced>) -> Did {
    match answer {
        Ok(()) => Did::Stored,
        Err(Raced { held, found }) => Did::Lost { held, found },
    }
}

/// What seat 1 sees of core 0 before and after seat 0 has stored and published, and what the two do.
fn store_then_load<J: Job>(
    table: &ReplayTable<J>,
    first: &mut CoreSeat<J>,
    second: &mut CoreSeat<J>,
    recording: &Recording,
) -> Result<([u32; 2], [Did; 5]), AllocError>
    requires recording { recording.now ≡ J.recording }
    requires some { 0 < length J.recording.totals }
    requires first { first.old.table_id ≡ table.now }
    requires second { second.old.table_id ≡ table.now }
{
    let before = table.seen_done(second, 0);
    let one = step(table, first, recording)?;
    let two = step(table, first, recording)?;
    let three = step(table, first, recording)?;
    table.publish(first);
    let after = table.seen_done(second, 0);
    let four = step(table, second, recording)?;
    let five = step(table, second, recording)?;
    Ok(([before, after], [one, two, three, four, five]))
}

/// Each seat goes on by its local instructions, one or two, and holds, and then both store.
fn both_hold<J: Job>(
    table: &ReplayTable<J>,
    first: &mut CoreSeat<J>,
    second: &mut CoreSeat<J>,
    recording: &Recording,
    two: bool,
) -> Result<[Did; 6], AllocError>
    requires recording { recording.now ≡ J.recording }
    requires first { first.old.table_id ≡ table.now }
    requires second { second.old.table_id ≡ table.now }
{
    if two {
        step(table, first, recording)?;
        step(table, second, recording)?;
    }
    let one = step(table, first, recording)?;
    let two = step(table, second, recording)?;
    let three = step(table, first, recording)?;
    let four = step(table, second, recording)?;
    let five = step(table, first, recording)?;
    let six = step(table, second, recording)?;
    Ok([one, two, three, four, five, six])
}

/// The seat's core goes on to its total, or until it has looked very often at what it waits for.
fn work<J: Job>(table: &ReplayTable<J>, seat: &mut CoreSeat<J>, recording: &Recording)
    requires recording { recording.now ≡ J.recording }
    requires table { seat.old.table_id ≡ table.now }
    ensures { seat.new.table_id ≡ seat.old.table_id }
{
    for _look in 0..1_000_000 {
        match step(table, seat, recording) {
            Ok(Did::Looked) => thread::yield_now(),
            Ok(Did::Ended) => return,
            Ok(_) => table.publish(seat),
            Err(_) => return,
        }
    }
}

/// Each seat in a thread of its own.
fn both_work<J: Job + Send + Sync, R: Threads + Sync>(
    rt: &R,
    table: &ReplayTable<J>,
    seats: &mut [CoreSeat<J>],
    recording: &Recording,
)
    requires recording { recording.now ≡ J.recording }
    requires tables { All (λ s. s.table_id ≡ table.now) seats.old }
    ensures { All (λ s. s.table_id ≡ table.now) seats.new }
{
    thread::for_each_mut(
        rt,
        seats,
        2,
        &|_, seat: &mut CoreSeat<J>|
            requires { (seat.old.table_id ≡ table.now) × (recording.now ≡ J.recording) }
            ensures { seat.exit.now.table_id ≡ table.entry.now }
        { work(table, seat, recording) },
    );
}

/// The end of a table whose two seats work in threads of their own.
fn worked<J: Job + Send + Sync, R: Threads + Sync>(
    rt: &R,
    alloc: Global,
    recording: &Recording,
) -> Result<Option<Closed>, AllocError>
    requires { Valid J.recording × (recording.now ≡ J.recording) × (J.which ≡ Regulated) }
{
    let (table, mut seats) = ReplayTable::<J>::make(alloc, recording, Which::Regulated)?;
    both_work(rt, &table, seats.as_mut_slice(), recording);
    let Some((first, second)) = pair(&table, seats) else {
        return Ok(None);
    };
    close_pair(alloc, table, recording, first, second)
}

/// What two seats do of which the second loads what the first has stored and published.
fn stored_then_loaded<J: Job>(
    alloc: Global,
    recording: &Recording,
) -> Result<Option<([u32; 2], [Did; 5])>, AllocError>
    requires { Valid J.recording × (recording.now ≡ J.recording) × (J.which ≡ Reduced) }
{
    let made = table_of_two::<J>(alloc, recording, Which::Reduced)?;
    let Some((table, mut first, mut second)) = made else {
        return Ok(None);
    };
    if recording.totals.len() == 0 {
        return Ok(None);
    }
    let did = store_then_load(&table, &mut first, &mut second, recording)?;
    Ok(Some(did))
}

/// What two seats do that both hold a word before either stores it.
fn both_held<J: Job>(
    alloc: Global,
    recording: &Recording,
    two: bool,
) -> Result<Option<[Did; 6]>, AllocError>
    requires { Valid J.recording × (recording.now ≡ J.recording) × (J.which ≡ Reduced) }
{
    let made = table_of_two::<J>(alloc, recording, Which::Reduced)?;
    let Some((table, mut first, mut second)) = made else {
        return Ok(None);
    };
    let did = both_hold(&table, &mut first, &mut second, recording, two)?;
    Ok(Some(did))
}

#[test]
fn what_is_published_is_loaded(rt: HostRuntime) -> Result<(), Fail> {
    let recording = read(rt.alloc(), &IN_TURN)?;
    let done = stored_then_loaded::<Brand>(rt.alloc(), &recording)?;
    let did = [
        Did::Local,
        Did::Local,
        Did::Stored,
        Did::Local,
        Did::Loaded(7),
    ];
    assert!(rt; done == Some(([0, 3], did)));
    Ok(())
}

/// Both seats go on by their local instructions and hold the word's 0; the first stores 5 and the second
/// finds it.
const ONE_LOSES: [Did; 6] = [
    Did::Local,
    Did::Local,
    Did::Held(0),
    Did::Held(0),
    Did::Stored,
    Did::Lost { held: 0, found: 5 },
];

/// So it is in a replay of these bytes.
fn one_loses(rt: &impl Abort, alloc: Global, bytes: &[u8], two: bool) -> Result<(), Fail> {
    let recording = read(alloc, bytes)?;
    let did = both_held::<Brand>(alloc, &recording, two)?;
    assert!(rt; did == Some(ONE_LOSES));
    Ok(())
}

#[test]
fn a_held_byte_is_lost(rt: HostRuntime) -> Result<(), Fail> {
    one_loses(&rt, rt.alloc(), &TWO_BYTES, false)
}

#[test]
fn a_held_sum_is_lost(rt: HostRuntime) -> Result<(), Fail> {
    one_loses(&rt, rt.alloc(), &TWO_SUMS, true)
}

/// Word 16 was left by core 1, which had found 7 there; core 0 found that at last.
fn is_in_turn(outcome: &Outcome) -> bool {
    let [ones, others] = outcome.loads.as_slice() else {
        return false;
    };
    let [one] = ones.as_slice() else {
        return false;
    };
    let [other] = others.as_slice() else {
        return false;
    };
    outcome.words.as_slice().get(16).copied() == Some(1) && one.value == 1 && other.value == 7
}

#[test]
fn two_threads_share_a_table(rt: HostRuntime) -> Result<(), Fail> {
    let recording = read(rt.alloc(), &IN_TURN)?;
    let closed = worked::<Brand, _>(&rt, rt.alloc(), &recording)?;
    let ended = match &closed {
        Some(closed) => is_in_turn(closed.outcome()) && closed.touched().len() == 2,
        None => false,
    };
    assert!(rt; ended);
    Ok(())
}
