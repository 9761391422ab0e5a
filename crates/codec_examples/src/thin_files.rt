//! What is thinned, and what is said of thin files.
ghost use Rattle.race_log.specs.Validity.{Valid};
ghost use Rattle.vector_reduce.specs.Validity.{IsThin};

use crate::thin_bytes::{FRONT, ROWS, Row, joined, thinned};
use log_codec::{CodecFault, spell};
use race_log::Recording;
use std::alloc::{AllocError, Global};
use std::test::Fail;
use vector_reduce::{ThinCheckFault, Thinned, check_thin, read_thin, spell_thin};

/// Whether the recording is spelled so.
fn is_left(alloc: Global, recording: &Recording, bytes: &[u8]) -> Result<bool, AllocError>
    requires { Valid recording.now }
{
    Ok(spell(alloc, recording)?.as_slice() == bytes)
}

/// Whether what is thinned is accepted, and is spelled so.
fn is_shown(alloc: Global, thinned: &Thinned, bytes: &[u8]) -> Result<bool, AllocError>
    requires { IsThin thinned.now }
{
    let spelled = spell_thin(alloc, thinned)?;
    Ok(check_thin(alloc, thinned) == Ok(()) && spelled.as_slice() == bytes)
}

/// Whether thinning the row gives what it says.
fn gives(alloc: Global, row: &Row) -> Result<bool, Fail> {
    let before = joined(alloc, &FRONT, row.before)?;
    let left = joined(alloc, &FRONT, row.after)?;
    let shown = joined(alloc, &left, row.shown)?;
    let once = thinned(alloc, &before)?;
    Ok(is_left(alloc, &once.recording, &left)? && is_shown(alloc, &once, &shown)?)
}

/// Whether thinning what is left changes nothing.
fn stays(alloc: Global, row: &Row) -> Result<bool, Fail> {
    let left = joined(alloc, &FRONT, row.after)?;
    let shown = joined(alloc, &left, row.shown)?;
    let twice = thinned(alloc, &left)?;
    Ok(is_shown(alloc, &twice, &shown)?)
}

// Thinning what was thinned changes nothing.
#[test]
fn what_is_left(rt: HostRuntime) -> Result<(), Fail> {
    for row in &ROWS {
        assert!(rt; gives(rt.alloc(), row)?, "{:?}", row.before);
        assert!(rt; stays(rt.alloc(), row)?, "{:?}", row.before);
    }
    Ok(())
}

/// What follows the thinned log of the first row, and the answer: the part that has no reading, or 10 and the
/// number of the vector that isn't shown to be needed, or 0.
///
/// In turn: cuts that have more, one of them as much as it may; the target isn't there; the source is; the cut isn't
/// closed under the other vector; no such edge, also none by far; a count above its total; a cut number; a byte more.
static CHANGED: [(&[u8], u32); 10] = [
    (&[0, 0, 3, 4, 0, 4, 0, 0], 0),
    (&[0, 0, 3, 6, 0, 5, 5, 3], 0),
    (&[0, 0, 0, 3, 0, 4, 0, 0], 11),
    (&[0, 0, 4, 4, 0, 4, 0, 0], 11),
    (&[0, 0, 0, 4, 0, 4, 3, 4], 12),
    (&[0, 0, 0, 4, 1, 4, 0, 0], 12),
    (&[0xff, 0xff, 0xff, 0xff, 0xf, 0, 0, 4, 0, 4, 0, 0], 11),
    (&[0, 0, 0, 7, 0, 4, 0, 0], 6),
    (&[0, 0, 0, 4, 0, 4, 0], 6),
    (&[0, 0, 0, 4, 0, 4, 0, 0, 0], 7),
];

/// What a check says of a thinned recording: 0, or 10 and the number of the vector that isn't shown to be needed, or
/// 20 where the audit refuses it, or 30 where memory runs out.
fn checked(alloc: Global, value: &Thinned) -> u32
    requires { IsThin value.now }
{
    match check_thin(alloc, value) {
        Ok(()) => 0,
        Err(ThinCheckFault::NotShown { vector }) => 10 + (vector % 8),
        Err(ThinCheckFault::Audit(_)) => 20,
        Err(ThinCheckFault::OutOfMemory) => 30,
    }
}

/// What reading and checking say of bytes: the part that has no reading, or what a check says.
fn said(alloc: Global, bytes: &[u8]) -> u32 {
    match read_thin(alloc, bytes) {
        Ok(value) => checked(alloc, &value),
        Err(CodecFault::Bad { part }) => part as u32,
        Err(CodecFault::OutOfMemory) => 31,
    }
}

#[test]
fn what_is_shown(rt: HostRuntime) -> Result<(), Fail> {
    let left = joined(rt.alloc(), &FRONT, ROWS[0].after)?;
    for (rest, answer) in &CHANGED {
        let bytes = joined(rt.alloc(), &left, rest)?;
        assert!(rt; said(rt.alloc(), &bytes) == *answer, "{rest:?}");
    }
    Ok(())
}

/// What is said of the thin file of the first row with 1 added to each byte in turn, 255 going to 0.
static SAID: [u32; 85] = [
    1, 1, 1, 1, 4, 0, 0, 1, 4, 20, 0, 0, 20, 20, 20, 20, 0, 20, 20, 20, 0, 20, 20, 0, 0, 20, 20,
    20, 20, 20, 0, 0, 0, 20, 20, 0, 0, 20, 20, 20, 20, 20, 0, 0, 0, 20, 0, 0, 0, 20, 20, 20, 20,
    20, 20, 20, 4, 0, 4, 0, 4, 4, 0, 4, 0, 5, 5, 5, 5, 5, 0, 20, 5, 5, 0, 20, 5, 11, 0, 0, 0, 12,
    0, 0, 0,
];

/// The bytes with 1 added to the one at a place.
fn changed_at(alloc: Global, bytes: &[u8], place: usize) -> Result<Vec<u8>, AllocError> {
    let mut changed = Vec::from_slice(alloc, bytes)?;
    if let Some(byte) = changed.get_mut(place) {
        *byte = byte.wrapping_add(1);
    }
    Ok(changed)
}

// No change of a byte is taken for another spelling of the same.
#[test]
fn each_byte_changed(rt: HostRuntime) -> Result<(), Fail> {
    let left = joined(rt.alloc(), &FRONT, ROWS[0].after)?;
    let shown = joined(rt.alloc(), &left, ROWS[0].shown)?;
    for (place, answer) in SAID.iter().enumerate() {
        let bytes = changed_at(rt.alloc(), &shown, place)?;
        assert!(rt; said(rt.alloc(), &bytes) == *answer, "at {place}");
    }
    Ok(())
}
