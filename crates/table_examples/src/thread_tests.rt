//! Replays on several threads, and a gate that sees whether two cores were worked at once.
ghost use Rattle.std.specs.Prelude.{◌≤◌};

use crate::recordings::{GOES_ROUND, IN_TURN, TWO_BYTES};
use log_codec::read;
use replay_threads::{Gate, Joint, OpenGate, replay_parallel};
use rtr_types::{Instr, Which};
use std::alloc::Global;
use std::sync::Wait;
use std::sync::atomic::{AtomicU64, Ordering};
use std::test::Fail;
use std::thread;
use std::thread::Threads;

/// A gate that holds each of two cores before its first instruction until the other has come to its own, or
/// for so many looks, and that counts the calls of both. On one thread they never meet, whichever is worked
/// first.
#[derive(Drop)]
struct Meeting {
    looks: u64,
    first: AtomicU64,
    second: AtomicU64,
    missed: AtomicU64,
    astray: AtomicU64,
}

impl Meeting {
    fn new(looks: u64) -> Meeting {
        Meeting {
            looks,
            first: AtomicU64::new(0),
            second: AtomicU64::new(0),
            missed: AtomicU64::new(0),
            astray: AtomicU64::new(0),
        }
    }

    /// How often a core has called: core 0, or else the other one.
    fn calls(&self, core: u8) -> &AtomicU64 {
        if core == 0 { &self.first } else { &self.second }
    }

    /// Looks for the other core until it has come.
    fn meet(&self, core: u8) {
        let other = if core == 0 { 1 } else { 0 };
        for _look in 0..self.looks {
            if self.calls(other).load(Ordering::SeqCst) > 0 {
                return;
            }
            thread::yield_now();
        }
        self.missed.store(1, Ordering::SeqCst);
    }

    /// Whether they met, and each core's calls were its counts from 1 on, in order and once each, up to its
    /// own total.
    fn saw(&self, first: u64, second: u64) -> bool {
        self.missed.load(Ordering::SeqCst) == 0
            && self.astray.load(Ordering::SeqCst) == 0
            && self.first.load(Ordering::SeqCst) == first
            && self.second.load(Ordering::SeqCst) == second
    }
}

impl Gate for Meeting {
    fn pass(&self, at: Instr) {
        let before = self.calls(at.core).fetch_add(1, Ordering::SeqCst);
        if before.wrapping_add(1) != at.count as u64 {
            self.astray.store(1, Ordering::SeqCst);
        }
        if at.count == 1 {
            self.meet(at.core);
        }
    }
}

/// How many words the memory of the replay has, if it was sure.
fn replayed<R: Threads + Wait + Sync, G: Gate>(
    rt: &R,
    alloc: Global,
    bytes: &[u8],
    which: Which,
    threads: u32,
    gate: &G,
) -> Result<Option<usize>, Fail>
    requires { (1 ≤ threads) × (threads ≤ 8) }
{
    let recording = read(alloc, bytes)?;
    match replay_parallel(rt, alloc, &recording, which, threads, gate)? {
        Joint::Ran(closed) => Ok(Some(closed.outcome().words.len())),
        Joint::Unsure => Ok(None),
    }
}

#[test]
fn a_word_handed_over(rt: HostRuntime) -> Result<(), Fail> {
    let alloc = rt.alloc();
    for which in [Which::Reduced, Which::Regulated] {
        let one = replayed(&rt, alloc, &IN_TURN, which, 1, &OpenGate)?;
        assert!(rt; one == Some(32));
        let two = replayed(&rt, alloc, &IN_TURN, which, 2, &OpenGate)?;
        assert!(rt; two == Some(32));
        let eight = replayed(&rt, alloc, &IN_TURN, which, 8, &OpenGate)?;
        assert!(rt; eight == Some(32));
    }
    Ok(())
}

#[test]
fn what_is_left_open(rt: HostRuntime) -> Result<(), Fail> {
    let alloc = rt.alloc();
    let one = replayed(&rt, alloc, &TWO_BYTES, Which::Reduced, 1, &OpenGate)?;
    assert!(rt; one.is_none());
    let two = replayed(&rt, alloc, &TWO_BYTES, Which::Regulated, 2, &OpenGate)?;
    assert!(rt; two.is_none());
    Ok(())
}

#[test]
fn two_threads_meet(rt: HostRuntime) -> Result<(), Fail> {
    let gate = Meeting::new(10_000_000);
    let met = replayed(&rt, rt.alloc(), &IN_TURN, Which::Reduced, 2, &gate)?;
    assert!(rt; met == Some(32) && gate.saw(5, 4));
    Ok(())
}

#[test]
fn one_thread_meets_nobody(rt: HostRuntime) -> Result<(), Fail> {
    let gate = Meeting::new(10);
    let missed = replayed(&rt, rt.alloc(), &IN_TURN, Which::Reduced, 1, &gate)?;
    assert!(rt; missed == Some(32) && !gate.saw(5, 4));
    Ok(())
}

// Where the log goes round no worker starts.
#[test]
fn nobody_starts(rt: HostRuntime) -> Result<(), Fail> {
    let gate = Meeting::new(10);
    let stuck = replayed(&rt, rt.alloc(), &GOES_ROUND, Which::Reduced, 2, &gate)?;
    assert!(rt; stuck.is_none() && gate.saw(0, 0));
    Ok(())
}
