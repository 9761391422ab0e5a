//! Streams that fail at each call, and what reading to the end and writing all make of them.
ghost use Rattle.std.specs.Prelude.{◌≡◌, ◌≤◌, MatchResult, None};
ghost use Rattle.rtr_io.specs.Faults.{HasRisen};

use rtr_io::{
    Failed, MemSink, MemSource, ReadEnd, Sink, Source, StdSink, StdSource, WriteFault, read_all,
    write_all,
};
use std::alloc::{AllocError, Global};
use std::io::{self, Read, Write};
use std::process::Abort;
use std::test::Fail;

/// Gives one byte a call, and fails at the call after `left` of them.
#[derive(Drop)]
struct Drips {
    left: u8,
}

impl Read for Drips {
    fn read(&mut self, buf: &mut [u8]) -> io::Result<usize> {
        if self.left == 0 {
            return Err(io::Error::from(io::ErrorKind::ConnectionReset));
        }
        match buf.first_mut() {
            None => Ok(0),
            Some(first) => {
                *first = self.left;
                self.left -= 1;
                Ok(1)
            }
        }
    }
}

/// Takes as many bytes as it is asked to, until `room` is used up, and then none.
#[derive(Drop)]
struct Fills {
    room: usize,
}

impl Write for Fills {
    fn write(&mut self, buf: &[u8]) -> io::Result<usize> {
        let n = buf.len().min(self.room);
        self.room -= n;
        Ok(n)
    }

    fn flush(&mut self) -> io::Result<()> {
        Ok(())
    }
}

/// Moves one byte a call, fails at the call of this number, and counts calls and faults.
#[derive(Drop)]
struct Counts {
    failing: u64,
    calls: u64,
    faults: u64,
}

impl Counts {
    fn new(failing: u64) -> Counts {
        Counts {
            failing,
            calls: 0,
            faults: 0,
        }
    }

    fn call(&mut self) -> Result<usize, Failed>
        ensures moved { MatchResult result (λ n. (n ≡ 1) × (self.new.faults ≡ self.old.faults))
            (λ _. HasRisen self.old.faults self.new.faults) }
        ensures never_falls { self.old.faults ≤ self.new.faults }
    {
        self.calls = self.calls.saturating_add(1);
        if self.calls == self.failing {
            self.faults = self.faults.saturating_add(1);
            return Err(Failed);
        }
        Ok(1)
    }
}

impl Source for Counts {
    ghost left = { λ _. None };

    ghost faults = { λ s. s.faults };

    fn take(&mut self, into: &mut [u8]) -> Result<usize, Failed> {
        into[0] = 7;
        self.call()
    }
}

impl Sink for Counts {
    ghost got = { λ _. None };

    ghost faults = { λ s. s.faults };

    fn give(&mut self, _piece: &[u8]) -> Result<usize, Failed> {
        self.call()
    }
}

#[test]
fn no_call_follows_one_that_failed(rt: HostRuntime) -> Result<(), Fail> {
    for failing in 1..=16 {
        let mut source = Counts::new(failing);
        let read = read_all(rt.alloc(), &mut source, 20);
        assert!(rt; read.err() == Some(ReadEnd::ReadFault));
        assert!(rt; source.calls == failing);

        let mut sink = Counts::new(failing);
        assert!(rt; write_all(&mut sink, &[9; 16]) == Err(WriteFault));
        assert!(rt; sink.calls == failing);
    }
    Ok(())
}

/// Four bytes, whose calls with these numbers fail.
fn four_bytes(alloc: Global, failing: &[u64]) -> Result<MemSource, AllocError> {
    let bytes = [7, 0, 9, 255].to_vec(alloc)?;
    Ok(MemSource::new(bytes, failing.to_vec(alloc)?, 3))
}

/// How many bytes are read of the four, and that they are the same.
fn read_of(
    rt: &impl Abort,
    alloc: Global,
    source: &mut MemSource,
    max: usize,
) -> Result<usize, ReadEnd> {
    let read = read_all(alloc, source, max)?;
    assert!(rt; read.as_slice() == [7, 0, 9, 255].as_slice());
    Ok(read.len())
}

#[test]
fn reads_to_the_end_or_refuses(rt: HostRuntime) -> Result<(), Fail> {
    for (max, answer) in [(4, Ok(4)), (usize::MAX, Ok(4)), (3, Err(ReadEnd::TooLarge))] {
        let mut source = four_bytes(rt.alloc(), &[])?;
        assert!(rt;
            read_of(&rt, rt.alloc(), &mut source, max) == answer,
            "at {max}"
        );
    }
    let mut source = four_bytes(rt.alloc(), &[2])?;
    assert!(rt; read_of(&rt, rt.alloc(), &mut source, 4) == Err(ReadEnd::ReadFault));
    Ok(())
}

/// A place for four bytes, whose calls with these numbers fail, and which takes so many at once.
fn four_places(alloc: Global, failing: &[u64], at_once: usize) -> Result<MemSink, AllocError> {
    MemSink::new(alloc, 4, failing.to_vec(alloc)?, at_once.max(1))
}

/// The four bytes are written so, and these of them lie there then.
fn writes(rt: &impl Abort, sink: &mut MemSink, answer: Result<(), WriteFault>, bytes: &[u8]) {
    assert!(rt; write_all(sink, &[7, 0, 9, 255]) == answer);
    assert!(rt; sink.bytes() == bytes);
}

#[test]
fn writes_all(rt: HostRuntime) -> Result<(), Fail> {
    let mut sink = four_places(rt.alloc(), &[], 3)?;
    writes(&rt, &mut sink, Ok(()), &[7, 0, 9, 255]);
    assert!(rt; write_all(&mut sink, &[1]).is_err(), "no room is left");
    Ok(())
}

#[test]
fn writes_a_part(rt: HostRuntime) -> Result<(), Fail> {
    let mut sink = four_places(rt.alloc(), &[3], 1)?;
    writes(&rt, &mut sink, Err(WriteFault), &[7, 0]);
    assert!(rt; sink.give(&[8]) == Ok(1), "the fourth call doesn't fail");
    Ok(())
}

#[test]
fn a_reader_is_tried_and_its_failure_counts(rt: HostRuntime) -> Result<(), Fail> {
    let mut source = StdSource::new(Drips { left: 2 });
    let mut into = [0u8; 4];
    assert!(rt; source.take(&mut into) == Ok(1));
    assert!(rt; into == [2, 0, 0, 0]);
    assert!(rt; read_all(rt.alloc(), &mut source, 9).err() == Some(ReadEnd::ReadFault));
    assert!(rt; source.take(&mut into) == Err(Failed));
    Ok(())
}

#[test]
fn a_writer_is_tried_and_taking_nothing_fails(rt: HostRuntime) -> Result<(), Fail> {
    let mut sink = StdSink::new(Fills { room: 5 });
    assert!(rt; sink.give(&[1, 2, 3]) == Ok(3));
    assert!(rt; sink.give(&[4, 5, 6]) == Ok(2));
    assert!(rt; sink.give(&[6]) == Err(Failed));
    assert!(rt; write_all(&mut sink, &[]) == Ok(()));
    Ok(())
}
