//! Bytes that are recordings, and bytes that aren't, with the part that is named.
use log_codec::{CodecFault, HEADER, IMAGE, REDUCED, TOTALS};
use std::alloc::Global;
use std::test::Fail;
use tso_codec::{END, VALUES, tso_read, tso_spell};

/// Two cores, of which each retired seven instructions, without an image and without edges. The logged loads
/// follow.
const FRONT: [u8; 13] = [0x52, 0x54, 0x52, 3, 2, 0x90, 0x4e, 0x20, 0, 7, 7, 0, 0];

/// What follows, and the part that is named, or 0 where it is a recording.
struct Row {
    rest: &'static [u8],
    part: u8,
}

// In turn: a logged load of each core; none; two of one core; a core is missing; a count doesn't rise; a count is
// above the total; a word is cut, and one isn't the shortest; one byte more.
static ROWS: [Row; 9] = [
    Row {
        rest: &[1, 6, 0, 1, 6, 0],
        part: 0,
    },
    Row {
        rest: &[0, 0],
        part: 0,
    },
    Row {
        rest: &[2, 6, 0xff, 0xff, 0xff, 0xff, 0xf, 1, 0, 0],
        part: 0,
    },
    Row {
        rest: &[0],
        part: VALUES,
    },
    Row {
        rest: &[1, 0, 0, 0],
        part: VALUES,
    },
    Row {
        rest: &[0, 2, 6, 0, 2, 0],
        part: VALUES,
    },
    Row {
        rest: &[0, 1, 6, 0x80],
        part: VALUES,
    },
    Row {
        rest: &[0, 1, 6, 0x80, 0],
        part: VALUES,
    },
    Row {
        rest: &[0, 0, 0],
        part: END,
    },
];

/// The part that the reading of the bytes names, or 0 where they are a recording that is spelled so.
fn part_of(alloc: Global, bytes: &[u8]) -> Result<Option<u8>, Fail> {
    match tso_read(alloc, bytes) {
        Ok(recording) => {
            let again = tso_spell(alloc, &recording)?;
            if again.as_slice() == bytes {
                return Ok(Some(0));
            }
            Ok(None)
        }
        Err(CodecFault::Bad { part }) => Ok(Some(part)),
        Err(CodecFault::OutOfMemory) => Ok(None),
    }
}

// What may follow the reduced log.
#[test]
fn logged_loads(rt: HostRuntime) -> Result<(), Fail> {
    for row in &ROWS {
        let mut bytes = Vec::from_slice(rt.alloc(), &FRONT)?;
        bytes.extend_from_slice(row.rest)?;
        assert!(rt; part_of(rt.alloc(), bytes.as_slice())? == Some(row.part));
    }
    Ok(())
}

/// The part in which the bytes of `FRONT` end, where only so many of them stand.
fn part_cut(count: usize) -> u8 {
    if count < 9 {
        return HEADER;
    }
    if count < 11 {
        return TOTALS;
    }
    if count < 13 {
        return REDUCED;
    }
    VALUES
}

// A file that is cut, at each byte.
#[test]
fn cut_files(rt: HostRuntime) -> Result<(), Fail> {
    for count in 0..FRONT.len() + 1 {
        assert!(rt; part_of(rt.alloc(), &FRONT[..count])? == Some(part_cut(count)));
    }
    Ok(())
}

// The header of version 2, an image that is longer than what stands, and one that is longer than the memory.
#[test]
fn earlier_parts(rt: HostRuntime) -> Result<(), Fail> {
    let mut other = FRONT;
    other[3] = 2;
    assert!(rt; part_of(rt.alloc(), &other)? == Some(HEADER));
    let mut longer = FRONT;
    longer[8] = 5;
    assert!(rt; part_of(rt.alloc(), &longer)? == Some(IMAGE));
    longer[7] = 4;
    longer[8] = 17;
    assert!(rt; part_of(rt.alloc(), &longer)? == Some(HEADER));
    Ok(())
}
