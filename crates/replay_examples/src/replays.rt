//! Replays by either log, in the low order and in another one.
ghost use Rattle.std.specs.Prelude.{IfOk};
ghost use Rattle.race_log.specs.Validity.{Valid};

use log_codec::read;
use race_log::Recording;
use replay_core::{Advanced, Replay, ReplayFault};
use row_texts::{HANDED_OVER, STORES};
use rtr_types::{CORES_MAX, Cut, Which};
use rv_core::{LoadNote, Outcome};
use std::alloc::{AllocError, Global};
use std::test::Fail;

/// Two cores, each of which adds its number and 1 to word 8 by AMOADD.W, core 0 first: 0:3 before 1:3.
const ADDED_UP: [u8; 36] = [
    0x52, 0x54, 0x52, 1, 2, 0x90, 0x4e, 0x10, 0x10, 0x93, 3, 0, 2, 0x93, 2, 0x15, 0, 0x2f, 0xa3,
    0x53, 0, 0x73, 0, 0, 0, 4, 4, 1, 3, 3, 0, 1, 1, 3, 3, 0,
];

/// The recording of two stores with these totals and logs.
fn two_stores(alloc: Global, rest: &[u8]) -> Result<Recording, Fail>
    ensures { IfOk result (λ recording. Valid recording) }
{
    let mut bytes = Vec::from_slice(alloc, &STORES)?;
    bytes.extend_from_slice(rest)?;
    Ok(read(alloc, &bytes)?)
}

/// How the replay is refused, if it is.
fn refused(alloc: Global, rest: &[u8], which: Which) -> Result<Option<ReplayFault>, Fail> {
    let recording = two_stores(alloc, rest)?;
    Ok(Replay::run(alloc, &recording, which).err())
}

/// A cut of two cores.
fn cut(first: u32, second: u32) -> Cut {
    let mut counts = [0; CORES_MAX as usize];
    counts[0] = first;
    counts[1] = second;
    Cut { cores: 2, counts }
}

// A log that goes round, a total past the program's end, and a log that leaves the two stores open.
#[test]
fn logs_by_hand(rt: HostRuntime) -> Result<(), Fail> {
    let round = [3, 3, 1, 2, 2, 1, 2, 2, 0, 0];
    let stuck = Some(ReplayFault::Stuck { cut: cut(1, 1) });
    assert!(rt; refused(rt.alloc(), &round, Which::Reduced)? == stuck);
    let past = [4, 3, 1, 2, 2, 0, 0, 0];
    let short = Some(ReplayFault::Short { core: 0, count: 3 });
    assert!(rt; refused(rt.alloc(), &past, Which::Reduced)? == short);
    let open = [3, 3, 0, 0, 0, 0];
    assert!(rt; refused(rt.alloc(), &open, Which::Reduced)?.is_none());
    Ok(())
}

// A regulated log that goes round where the reduced one doesn't.
#[test]
fn stuck_by_one_log(rt: HostRuntime) -> Result<(), Fail> {
    let rest = [3, 3, 1, 2, 2, 0, 1, 1, 2, 2, 1, 1, 2, 2];
    let stuck = Some(ReplayFault::Stuck { cut: cut(1, 1) });
    assert!(rt; refused(rt.alloc(), &rest, Which::Reduced)?.is_none());
    assert!(rt; refused(rt.alloc(), &rest, Which::Regulated)? == stuck);
    Ok(())
}

/// Whether the outcome is what each of the two cores in turn leaves.
fn is_left(outcome: &Outcome) -> bool {
    let [first, second] = outcome.cores.as_slice() else {
        return false;
    };
    let [ones, others] = outcome.loads.as_slice() else {
        return false;
    };
    let load = |count, value| LoadNote {
        count,
        word: 16,
        value,
    };
    (first.count(), first.pc(), first.reg(5), first.reg(6)) == (5, 0x14, 7, 1)
        && (second.count(), second.pc(), second.reg(7), second.reg(10)) == (4, 0x20, 7, 1)
        && outcome.words.len() == 32
        && outcome.words.as_slice().get(16).copied() == Some(1)
        && ones.as_slice() == [load(4, 1)].as_slice()
        && others.as_slice() == [load(2, 7)].as_slice()
}

/// Whether the outcome has what each core's AMO found, and what the two leave.
fn is_added_up(outcome: &Outcome) -> bool {
    let [ones, others] = outcome.loads.as_slice() else {
        return false;
    };
    let note = |value| LoadNote {
        count: 3,
        word: 8,
        value,
    };
    outcome.words.as_slice().get(8).copied() == Some(3)
        && ones.as_slice() == [note(0)].as_slice()
        && others.as_slice() == [note(1)].as_slice()
}

/// The outcome of the low order of the log of these bytes.
fn replayed(alloc: Global, bytes: &[u8], which: Which) -> Result<Outcome, Fail> {
    let recording = read(alloc, bytes)?;
    Ok(Replay::run(alloc, &recording, which)?)
}

// Two AMOs of one word, by either log.
#[test]
fn added_up(rt: HostRuntime) -> Result<(), Fail> {
    for which in [Which::Reduced, Which::Regulated] {
        assert!(rt; is_added_up(&replayed(rt.alloc(), &ADDED_UP, which)?));
    }
    Ok(())
}

// What the low order of each log leaves.
#[test]
fn in_turn(rt: HostRuntime) -> Result<(), Fail> {
    for which in [Which::Reduced, Which::Regulated] {
        assert!(rt; is_left(&replayed(rt.alloc(), &HANDED_OVER, which)?));
    }
    Ok(())
}

/// Whether the core, which is ready, retires its next instruction.
fn retires(replay: &mut Replay, core: u8) -> Result<bool, AllocError> {
    if core >= replay.cores() {
        return Ok(false);
    }
    replay.make_room()?;
    if !replay.has_room() || !replay.ready(core) {
        return Ok(false);
    }
    Ok(replay.advance(core) != Advanced::Short)
}

/// Whether the cores retire their next instructions in this order, and then all have their totals.
fn is_whole_order(replay: &mut Replay, order: &[u8]) -> Result<bool, AllocError> {
    for &core in order {
        if replay.whole() || !retires(replay, core)? {
            return Ok(false);
        }
    }
    Ok(replay.whole())
}

/// Whether another whole order than the low one leaves what the cores leave in turn.
fn leaves_the_same(alloc: Global, recording: &Recording, which: Which) -> Result<bool, Fail>
    requires { Valid recording.now }
{
    let mut replay = Replay::new(alloc, recording, which)?;
    if !is_whole_order(&mut replay, &[1, 0, 0, 0, 1, 1, 1, 0, 0])? || replay.cut() != cut(5, 4) {
        return Ok(false);
    }
    Ok(is_left(&replay.into_outcome(alloc)?))
}

// Another order by either log.
#[test]
fn another_order(rt: HostRuntime) -> Result<(), Fail> {
    let recording = read(rt.alloc(), &HANDED_OVER)?;
    assert!(rt; leaves_the_same(rt.alloc(), &recording, Which::Reduced)?);
    assert!(rt; leaves_the_same(rt.alloc(), &recording, Which::Regulated)?);
    Ok(())
}
