//! A recording of store buffering: each of two cores stores 1 to a word of its own, 16 or 20, and then loads
//! the other's, and both loads find 0. What found no memory is made once more, so that each test passes too where one
//! allocation fails, whichever it is.
ghost use Rattle.std.specs.Prelude.{IfOk};
ghost use Rattle.tso_codec.specs.Validity.{IsTso};

use replay_core::ReplayFault;
use rtr_types::{CORES_MAX, Cut};
use rv_core::{LoadNote, Outcome};
use std::alloc::{AllocError, Global};
use std::test::Fail;
use tso_codec::{TsoRecording, tso_read, tso_spell};
use tso_replay::tso_replay;

const BUFFERED: [u8; 47] = [
    0x52, 0x54, 0x52, 3, 2, 0x90, 0x4e, 0x20, 0x1c, 0x13, 0x13, 0x45, 0, 0x93, 0x43, 0x15, 0, 0x13,
    0x94, 0x43, 0, 0x93, 4, 0x10, 0, 0x23, 0x20, 0x93, 4, 0x83, 0x25, 4, 4, 0x73, 0, 0, 0, 7, 7, 0,
    0, 1, 6, 0, 1, 6, 0,
];

/// The place of the first total, and that of the count at which core 1's load is logged.
const TOTAL: usize = 37;

const LOGGED: usize = 45;

/// Where the logs begin, and the logs of two edges that go round, 0:5 before 1:5 and the other way, without
/// logged loads.
const LOGS: usize = 39;

const ROUND: [u8; 10] = [1, 5, 1, 5, 1, 5, 0, 5, 0, 0];

/// Whether the outcome is what the two cores leave, where each load gets these words.
fn is_left(outcome: &Outcome, first: u32, second: u32) -> bool {
    let [one, other] = outcome.cores.as_slice() else {
        return false;
    };
    let [ones, others] = outcome.loads.as_slice() else {
        return false;
    };
    let load = |word, value| LoadNote {
        count: 6,
        word,
        value,
    };
    let words = outcome.words.as_slice();
    (one.count(), one.pc(), one.reg(7), one.reg(8), one.reg(11)) == (7, 0x1c, 1, 0x10, first)
        && (
            other.count(),
            other.pc(),
            other.reg(6),
            other.reg(10),
            other.reg(11),
        ) == (7, 0x1c, 0x10, 1, second)
        && (words.len(), words.get(16).copied(), words.get(20).copied()) == (32, Some(1), Some(1))
        && ones.as_slice() == [load(20, first)].as_slice()
        && others.as_slice() == [load(16, second)].as_slice()
}

/// The recording that these bytes spell.
fn read(alloc: Global, bytes: &[u8]) -> Result<TsoRecording, Fail>
    ensures { IfOk result (λ recording. IsTso recording) }
{
    match tso_read(alloc, bytes) {
        Ok(recording) => Ok(recording),
        Err(_) => Ok(tso_read(alloc, bytes)?),
    }
}

/// The bytes that spell the recording.
fn spelled(alloc: Global, recording: &TsoRecording) -> Result<Vec<u8>, AllocError>
    requires { IsTso recording.now }
{
    match tso_spell(alloc, recording) {
        Ok(bytes) => Ok(bytes),
        Err(_) => tso_spell(alloc, recording),
    }
}

/// What the replay of these bytes answers.
fn replayed(alloc: Global, bytes: &[u8]) -> Result<Result<Outcome, ReplayFault>, Fail> {
    let recording = read(alloc, bytes)?;
    match tso_replay(alloc, &recording) {
        Err(ReplayFault::OutOfMemory) => Ok(tso_replay(alloc, &recording)),
        answer => Ok(answer),
    }
}

/// Whether the replay of these bytes gives the two loads these words.
fn gives(alloc: Global, bytes: &[u8], first: u32, second: u32) -> Result<bool, Fail> {
    match replayed(alloc, bytes)? {
        Ok(outcome) => Ok(is_left(&outcome, first, second)),
        Err(_) => Ok(false),
    }
}

/// How the replay of these bytes is refused, if it is.
fn refused(alloc: Global, bytes: &[u8]) -> Result<Option<ReplayFault>, Fail> {
    Ok(replayed(alloc, bytes)?.err())
}

// Both loads find 0, as they did when they were logged, and the recording is spelled as it was read.
#[test]
fn both_loads_find_nothing(rt: HostRuntime) -> Result<(), Fail> {
    assert!(rt; gives(rt.alloc(), &BUFFERED, 0, 0)?);
    let recording = read(rt.alloc(), &BUFFERED)?;
    let bytes = spelled(rt.alloc(), &recording)?;
    assert!(rt; bytes.as_slice() == BUFFERED.as_slice());
    Ok(())
}

// A word that is logged at the store is ignored, so that core 1's load finds core 0's store.
#[test]
fn a_value_at_a_store(rt: HostRuntime) -> Result<(), Fail> {
    let mut earlier = BUFFERED;
    earlier[LOGGED] = 5;
    assert!(rt; gives(rt.alloc(), &earlier, 0, 1)?);
    Ok(())
}

// A total past the program's end, and a log that goes round.
#[test]
fn replays_that_end(rt: HostRuntime) -> Result<(), Fail> {
    let mut longer = BUFFERED;
    longer[TOTAL] = 8;
    let short = Some(ReplayFault::Short { core: 0, count: 7 });
    assert!(rt; refused(rt.alloc(), &longer)? == short);
    let mut bytes = [0; LOGS + 10];
    bytes[..LOGS].copy_from_slice(&BUFFERED[..LOGS]);
    bytes[LOGS..].copy_from_slice(&ROUND);
    let mut counts = [0; CORES_MAX as usize];
    counts[0] = 4;
    counts[1] = 4;
    let stuck = Some(ReplayFault::Stuck {
        cut: Cut { cores: 2, counts },
    });
    assert!(rt; refused(rt.alloc(), &bytes)? == stuck);
    Ok(())
}
