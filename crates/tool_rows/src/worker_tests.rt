//! Replays on several threads, and a gate that sees whether two cores were worked at once.

use crate::all_pairs::recorded;
use crate::calls::{Answer, ask, ask_at};
use crate::lock::of_the_lock;
use crate::table_calls::{Form, named};
use log_codec::read;
use replay_threads::Gate;
use row_texts::bytes;
use rtr_types::Instr;
use std::alloc::Global;
use std::process::Abort;
use std::sync::Wait;
use std::sync::atomic::{AtomicU64, Ordering};
use std::test::Fail;
use std::thread::{self, Threads};

/// How often a core looks for the other at the most.
const LOOKS: u64 = 10_000_000;

/// A gate that holds each of two cores before its first instruction until the other has come, and counts the calls of
/// both.
#[derive(Drop)]
struct Meeting {
    first: AtomicU64,
    second: AtomicU64,
    missed: AtomicU64,
    astray: AtomicU64,
}

impl Meeting {
    fn new() -> Meeting {
        Meeting {
            first: AtomicU64::new(0),
            second: AtomicU64::new(0),
            missed: AtomicU64::new(0),
            astray: AtomicU64::new(0),
        }
    }

    /// Looks for the core with these calls until it has come.
    fn meet(&self, calls: &AtomicU64) {
        for look in 0..LOOKS {
            if calls.load(Ordering::SeqCst) > 0 {
                return;
            }
            thread::yield_now();
        }
        self.missed.store(1, Ordering::SeqCst);
    }

    /// Whether no look was in vain, and each core's calls were its counts from 1 on, in order and once each.
    fn is_in_order(&self) -> bool {
        self.missed.load(Ordering::SeqCst) == 0 && self.astray.load(Ordering::SeqCst) == 0
    }

    /// How many calls both cores made.
    fn calls(&self) -> (u64, u64) {
        let first = self.first.load(Ordering::SeqCst);
        (first, self.second.load(Ordering::SeqCst))
    }
}

impl Gate for Meeting {
    fn pass(&self, at: Instr) {
        let (passed, other) = if at.core == 0 {
            (&self.first, &self.second)
        } else {
            (&self.second, &self.first)
        };
        let before = passed.fetch_add(1, Ordering::SeqCst);
        if before.wrapping_add(1) != at.count as u64 {
            self.astray.store(1, Ordering::SeqCst);
        }
        if at.count == 1 {
            self.meet(other);
        }
    }
}

/// The totals of a recording of two cores, and zeros of any other.
fn totals_of(alloc: Global, bytes: &[u8]) -> Result<(u64, u64), Fail> {
    let recording = read(alloc, bytes)?;
    Ok(match recording.totals.as_slice() {
        [first, second] => (*first as u64, *second as u64),
        _ => (0, 0),
    })
}

/// Compares a replay that passed the gate with the run, and the calls of the gate with the totals.
fn is_worked<R: Abort>(rt: &R, replay: &Answer, run: &[u8], gate: &Meeting, totals: (u64, u64)) {
    assert!(rt; replay.status == 0 && replay.joint);
    assert!(rt; replay.output.as_slice() == run);
    assert!(rt; gate.is_in_order() && gate.calls() == totals);
}

// Each of two cores takes the lock 500 times. Two workers replay it at the same time: each core is held until the other
// has come, and then passes as often as its total says.
#[test]
fn two_workers_meet_and_pass_each_instruction_once(rt: HostRuntime) -> Result<(), Fail> {
    let alloc = rt.alloc();
    let run = of_the_lock(&rt, alloc, "run", " --loads")?;
    let made = of_the_lock(&rt, alloc, "record", "")?;
    let totals = totals_of(alloc, made.as_slice())?;
    let gate = Meeting::new();
    let replay = ask_at(&rt, alloc, "replay --threads 2 --loads", made, &gate)?;
    is_worked(&rt, &replay, run.as_slice(), &gate, totals);
    Ok(())
}

/// Two cores that store to one word, and a reduced log that goes round.
const GOES_ROUND: &str =
    "52545201 02 904e 10 0c 93025500 23205002 73000000 0303 010202 010202 00 00";

// A log that goes round: no worker starts, so that nobody passes the gate.
#[test]
fn no_worker_starts_where_the_log_goes_round(rt: HostRuntime) -> Result<(), Fail> {
    let alloc = rt.alloc();
    let recording = bytes(alloc, GOES_ROUND)?;
    let gate = Meeting::new();
    let answer = ask_at(&rt, alloc, "replay --threads 2", recording, &gate)?;
    assert!(rt; answer.status == 4 && !answer.joint);
    assert!(rt; answer.report.as_slice() == b"rtr: stuck at 1 1\n".as_slice());
    assert!(rt; gate.calls() == (0, 0));
    Ok(())
}

/// Whether a replay by these words is one of workers, and gives these bytes.
fn is_worked_alike<R: Threads + Wait + Sync>(
    rt: &R,
    alloc: Global,
    words: &str,
    recording: Vec<u8>,
    alone: &[u8],
) -> Result<bool, Fail> {
    let replay = ask(rt, alloc, words, recording)?;
    Ok(replay.joint && replay.output.as_slice() == alone)
}

/// Whether workers come to what one thread comes to: two by the reduced log, and eight by the regulated one.
pub fn workers_agree<R: Threads + Wait + Sync>(
    rt: &R,
    alloc: Global,
    recording: Vec<u8>,
) -> Result<bool, Fail> {
    let alone = ask(rt, alloc, "replay --loads", recording.clone()?)?;
    let given = alone.output.as_slice();
    let words = "replay --loads --threads 2";
    let few = is_worked_alike(rt, alloc, words, recording.clone()?, given)?;
    let words = "replay --log regulated --loads --threads 8";
    let many = is_worked_alike(rt, alloc, words, recording, given)?;
    Ok(alone.status == 0 && few && many)
}

// Two cores add to a word by atomic memory operations, and each has what it found there among its loads.
#[test]
fn workers_add_to_one_word(rt: HostRuntime) -> Result<(), Fail> {
    let alloc = rt.alloc();
    let words = "record --cores 2 --words 16 --choices 0000000000000000000000000000";
    let made = ask(&rt, alloc, words, named(alloc, "", "SUM", Form::Digits)?)?.output;
    let replay = ask(&rt, alloc, "replay --threads 2 --loads", made.clone()?)?;
    let loads = b"load 0 3 00000020 00000000\nload 1 3 00000020 00000001\n";
    assert!(rt; replay.output.ends_with(loads.as_slice()));
    assert!(rt; workers_agree(&rt, alloc, made)?);
    Ok(())
}

// As many cores as there can be, each of which waits for every other, on fewer threads.
#[test]
fn sixteen_cores_are_worked_by_eight_threads(rt: HostRuntime) -> Result<(), Fail> {
    let made = recorded(&rt, rt.alloc())?;
    assert!(rt; workers_agree(&rt, rt.alloc(), made)?);
    Ok(())
}
