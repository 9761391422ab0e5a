//! A source and a sink over memory, whose faults are scripted.
ghost use Rattle.std.specs.Prelude.{◌≡◌, ◌≢◌, ◌+◌, ◌-◌, ◌≤◌, ◌<◌, ◌⊎◌, ◌↔◌, [], ◌++◌, Contains, IfOk, IsErr, IsTrue};
ghost use Rattle.std.specs.Prelude.{OnErr, OnOk, Some, drop, length, min, vec_capacity, vec_len};
ghost use Rattle.rtr_io.specs.Faults.{HasRisen};
ghost use Rattle.std.specs.Io.KnownBytes.{ReadConsumes, WriteAppends};
ghost use Rattle.rtr_io.specs.Streams.{called, failed, fresh, risen};

use crate::traits::{Failed, Sink, Source};
use std::alloc::{AllocError, Global};
use std::marker::Model;

/// Which calls fail, and how much one moves.
#[derive(Drop)]
struct Plan {
    failing: Vec<u64>,
    most: usize,
    calls: u64,
    faults: u64,
}

impl Model for Plan {
    ghost use Rattle.rtr_io.specs.Streams.{Script};
    ghost use Rattle.std.specs.Prelude.{◌≤◌};

    ghost Value = { Script };

    ghost view = { λ p. record { failing = p.failing.items; most = p.most; calls = p.calls; faults = p.faults } };

    ghost invariant = { λ p. 1 ≤ p.most };
}

impl Plan {
    fn new(failing: Vec<u64>, most: usize) -> Self
        requires { 1 ≤ most }
        ensures { result ≡ fresh failing.items most }
    {
        Plan {
            failing,
            most,
            calls: 0,
            faults: 0,
        }
    }

    /// Counts a call, and answers whether it is to fail.
    fn fails(&mut self) -> bool
        ensures fails { IsTrue result ↔ Contains self.old.failing (risen self.old.calls) }
        ensures state { self.new ≡ called self.old }
    {
        self.calls = self.calls.saturating_add(1);
        self.failing.contains(&self.calls)
    }

    /// Counts a fault.
    fn fault(&mut self)
        ensures state { self.new ≡ record self.old { faults = risen self.old.faults } }
        ensures never_falls { self.old.faults ≤ self.new.faults }
    {
        self.faults = self.faults.saturating_add(1);
    }

    /// The most bytes that one call moves.
    fn most(&self) -> usize
        ensures most { result ≡ self.now.most }
        ensures some { 1 ≤ result }
    {
        self.most
    }
}

/// A source over memory. The calls whose numbers it was made with fail, and no others; a call moves
/// as many bytes as there is place for, at most the number that it was made with.
#[derive(Drop)]
pub struct MemSource {
    bytes: Vec<u8>,
    next: usize,
    plan: Plan,
}

impl Model for MemSource {
    ghost use Rattle.std.specs.Prelude.{drop, length, ◌≤◌};
    ghost use Rattle.rtr_io.specs.Streams.{Reading};

    ghost Value = { Reading };

    ghost view = { λ s. record { left = drop s.next s.bytes.items; script = s.plan } };

    ghost invariant = { λ s. s.next ≤ length s.bytes.items };
}

impl MemSource {
    /// A source of these bytes. `failing` has the numbers, from 1, of the calls that are to fail, and
    /// `most` is the greatest number of bytes that one call moves.
    pub fn new(bytes: Vec<u8>, failing: Vec<u64>, most: usize) -> MemSource
        requires { 1 ≤ most }
        ensures left { result.left ≡ bytes.items }
        ensures script { result.script ≡ fresh failing.items most }
    {
        MemSource {
            bytes,
            next: 0,
            plan: Plan::new(failing, most),
        }
    }
}

impl Source for MemSource {
    ghost left = { λ s. Some s.left };

    ghost faults = { λ s. s.script.faults };

    fn take(&mut self, into: &mut [u8]) -> Result<usize, Failed>
        requires { 0 < length into.old }
        ensures within { IfOk result (λ n. n ≤ length into.new) }
        ensures bytes { ReadConsumes (Some self.old.left) (Some self.new.left) result into.new }
        ensures ok { OnOk result (self.new.script.faults ≡ self.old.script.faults) }
        ensures failed { OnErr result (HasRisen self.old.script.faults self.new.script.faults) }
        ensures never_falls { self.old.script.faults ≤ self.new.script.faults }

        // Beyond what every source promises: which calls fail, how much the others move, and what is kept.
        ensures scripted { IsErr result ↔ Contains self.old.script.failing (risen self.old.script.calls) }
        ensures moved { IfOk result (λ n. n ≡ min (min (length into.old) self.old.script.most) (length self.old.left)) }
        ensures after_ok { OnOk result (self.new.script ≡ called self.old.script) }
        ensures after_fault { OnErr result (self.new.script ≡ failed self.old.script) }
    {
        if self.plan.fails() {
            self.plan.fault();
            return Err(Failed);
        }
        let left = &self.bytes[self.next..];
        let n = into.len().min(self.plan.most()).min(left.len());
        into[..n].copy_from_slice(&left[..n]);
        self.next += n;
        Ok(n)
    }
}

/// A sink over memory, which takes all its room when it is made. The calls whose numbers it was made
/// with fail, and those that find no room left; a call takes as many bytes as there are and as it has
/// room for, at most the number that it was made with.
#[derive(Drop)]
pub struct MemSink {
    bytes: Vec<u8>,
    room: usize,
    plan: Plan,
}

impl Model for MemSink {
    ghost use Rattle.std.specs.Prelude.{length, vec_capacity, vec_len, ◌≤◌};
    ghost use Rattle.rtr_io.specs.Streams.{Writing};

    ghost Value = { Writing };

    ghost view = { λ s. record { got = s.bytes.items; room = s.room; script = s.plan } };

    ghost invariant = { λ s. (vec_len s.bytes ≤ s.room) × (s.room ≤ vec_capacity s.bytes) };
}

impl MemSink {
    /// A sink with room for `room` bytes. `failing` has the numbers, from 1, of the calls that are to
    /// fail, and `most` is the greatest number of bytes that one call takes.
    pub fn new(
        alloc: Global,
        room: usize,
        failing: Vec<u64>,
        most: usize,
    ) -> Result<MemSink, AllocError>
        requires { 1 ≤ most }
        ensures got { IfOk result (λ sink. sink.got ≡ []) }
        ensures room { IfOk result (λ sink. sink.room ≡ room) }
        ensures script { IfOk result (λ sink. sink.script ≡ fresh failing.items most) }
    {
        Ok(MemSink {
            bytes: Vec::with_capacity(alloc, room)?,
            room,
            plan: Plan::new(failing, most),
        })
    }

    /// What it got, in order.
    pub fn bytes(&self) -> &[u8]
        ensures { result.now ≡ self.now.got }
    {
        self.bytes.as_slice()
    }
}

impl Sink for MemSink {
    ghost got = { λ s. Some s.got };

    ghost faults = { λ s. s.script.faults };

    fn give(&mut self, piece: &[u8]) -> Result<usize, Failed>
        requires { 0 < length piece.now }
        ensures some { IfOk result (λ n. 1 ≤ n) }
        ensures within { IfOk result (λ n. n ≤ length piece.now) }
        ensures bytes { WriteAppends (Some self.old.got) (Some self.new.got) result piece.now }
        ensures ok { OnOk result (self.new.script.faults ≡ self.old.script.faults) }
        ensures failed { OnErr result (HasRisen self.old.script.faults self.new.script.faults) }
        ensures never_falls { self.old.script.faults ≤ self.new.script.faults }

        // Beyond what every sink promises: which calls fail, how much the others take, and what is kept.
        ensures scripted { IsErr result ↔ (Contains self.old.script.failing (risen self.old.script.calls)
            ⊎ (self.old.room ≡ length self.old.got)) }
        ensures moved { IfOk result (λ n. n ≡ min (min (length piece.now) self.old.script.most)
            (self.old.room - length self.old.got)) }
        ensures room { self.new.room ≡ self.old.room }
        ensures after_ok { OnOk result (self.new.script ≡ called self.old.script) }
        ensures after_fault { OnErr result (self.new.script ≡ failed self.old.script) }
    {
        let room = self.room - self.bytes.len();
        if self.plan.fails() || room == 0 {
            self.plan.fault();
            return Err(Failed);
        }
        let n = piece.len().min(self.plan.most()).min(room);
        append_reserved(&mut self.bytes, &piece[..n]);
        Ok(n)
    }
}

/// Appends the bytes, for which there is room.
fn append_reserved(to: &mut Vec<u8>, bytes: &[u8])
    requires { vec_len to.old + length bytes.now ≤ vec_capacity to.old }
    ensures items { to.new.items ≡ to.old.items ++ bytes.now }
    ensures len { vec_len to.new ≡ vec_len to.old + length bytes.now }
    ensures capacity { vec_capacity to.new ≡ vec_capacity to.old }
{
    for byte in bytes {
        to.push_reserved(*byte);
    }
}
