//! Reading to the end, and writing all.
ghost use Rattle.std.specs.Prelude.{◌≡◌, ◌+◌, ◌<◌, ◌≤◌, Err, IfOk, IsErrOf, OnErr, OnOk, length, take, vec_len};
ghost use Rattle.std.specs.Io.KnownBytes.{Appends, Consumes, IsAtEnd};
ghost use Rattle.rtr_io.specs.Faults.{HasRisen, IsUnlessFault};
ghost use Rattle.rtr_io.specs.Moved.{GivesPart, TakesAtMost, TakesJust};

use crate::traits::{Failed, Sink, Source};
use std::alloc::{AllocError, Global};

/// Why a source wasn't read to its end.
#[derive(Clone, Copy, Debug, PartialEq, Eq)]
pub enum ReadEnd {
    /// A call of the source failed.
    ReadFault,
    /// The source had more bytes than were wanted.
    TooLarge,
    /// There was no memory for the bytes.
    OutOfMemory,
}

impl From<AllocError> for ReadEnd {
    ghost use Rattle.rtr_io.specs.declared.transfer.ReadEnd.TheVariants.{OutOfMemory};

    ghost from_gives = { λ _ e. e ≡ OutOfMemory };

    fn from(_error: AllocError) -> ReadEnd {
        ReadEnd::OutOfMemory
    }
}

/// A call of the sink failed before all bytes were given.
#[derive(Clone, Copy, Debug, PartialEq, Eq)]
pub struct WriteFault;

/// The most bytes that one call of a source is asked for.
const CHUNK: usize = 4096;

/// Reads to the end, at most `max` bytes. `ReadFault` comes only where the source's count of faults
/// rose in this call; at most `max` bytes were taken then. `TooLarge` comes exactly where more than `max`
/// bytes were taken: then just `max + 1` were. `OutOfMemory` is for want of memory alone; the bytes taken
/// before, at most `max + 1`, are dropped. Every answer but `ReadFault` leaves the count as it was. No call
/// of the source follows one that failed.
pub fn read_all<S: Source>(alloc: Global, source: &mut S, max: usize) -> Result<Vec<u8>, ReadEnd>
    ensures within { IfOk result (λ bytes. vec_len bytes ≤ max) }
    ensures bytes { IfOk result (λ bytes. Consumes (S.left source.old) (S.left source.new) bytes.items) }
    ensures end { OnOk result (IsAtEnd (S.left source.new)) }

    // Each refusal says how much was taken.
    ensures too_large { IsErrOf result ReadEnd.TooLarge → TakesJust (max + 1) (S.left source.old) (S.left source.new) }
    ensures refused { IsErrOf result ReadEnd.ReadFault → TakesAtMost max (S.left source.old) (S.left source.new) }
    ensures dropped { IsErrOf result ReadEnd.OutOfMemory →
        TakesAtMost (max + 1) (S.left source.old) (S.left source.new) }

    ensures fault { IsErrOf result ReadEnd.ReadFault → HasRisen (S.faults source.old) (S.faults source.new) }
    ensures no_fault { IsUnlessFault ReadEnd.ReadFault result (S.faults source.old) (S.faults source.new) }
    ensures never_falls { S.faults source.old ≤ S.faults source.new }
{
    let mut bytes = Vec::new(alloc);
    let mut chunk = [0u8; CHUNK];
    while bytes.len() <= max {
        let wanted = (max - bytes.len()).min(CHUNK - 1) + 1;
        match source.take(&mut chunk[..wanted]) {
            Ok(0) => return Ok(bytes),
            Ok(n) => bytes.extend_from_slice(&chunk[..n])?,
            Err(Failed) => return Err(ReadEnd::ReadFault),
        }
    }
    Err(ReadEnd::TooLarge)
}

/// Gives all bytes. `WriteFault` comes only where the sink's count of faults rose in this call; a
/// part of the bytes, from their front, was given then. `Ok` leaves the count as it was. No call of the
/// sink follows one that failed.
pub fn write_all<S: Sink>(sink: &mut S, bytes: &[u8]) -> Result<(), WriteFault>
    ensures all { OnOk result (Appends (S.got sink.old) (S.got sink.new) bytes.now) }
    ensures part { OnErr result (GivesPart bytes.now (S.got sink.old) (S.got sink.new)) }
    ensures ok { OnOk result (S.faults sink.new ≡ S.faults sink.old) }
    ensures fault { OnErr result (HasRisen (S.faults sink.old) (S.faults sink.new)) }
    ensures never_falls { S.faults sink.old ≤ S.faults sink.new }
{
    let mut given = 0;
    while given < bytes.len() {
        match sink.give(&bytes[given..]) {
            Ok(n) => given += n,
            Err(Failed) => return Err(WriteFault),
        }
    }
    Ok(())
}
