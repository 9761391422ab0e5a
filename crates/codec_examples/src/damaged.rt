//! Damaged recordings, and the part that is named.
use crate::bytes::{TWO_CORES, joined};
use log_codec::{CodecFault, END, HEADER, IMAGE, REDUCED, REGULATED, TOTALS, read};
use std::alloc::Global;
use std::test::Fail;

// Damaged recordings of one core, or damaged in the header, and the part that is named.
const ONE_CORE_DAMAGED: [(&[u8], u8); 18] = [
    (&[], HEADER),
    (
        &[
            0x52, 0x54, 0x52, 3, 2, 0x90, 0x4e, 0x10, 0, 3, 3, 0, 0, 0, 0,
        ],
        HEADER,
    ),
    (&[0x52, 0x54, 0x52, 1, 9, 0x90, 0x4e, 0x10, 0], HEADER),
    (&[0x52, 0x54, 0x52, 1, 1, 0, 0x10, 0, 0], HEADER),
    (&[0x52, 0x54, 0x52, 1, 1, 0x90, 0x4e, 6, 0, 0], HEADER),
    (&[0x52, 0x54, 0x52, 1, 1, 0x90, 0x4e, 4, 0x11], HEADER),
    (&[0x52, 0x54, 0x52, 1, 1, 0x90, 0x4e, 4, 4, 0x73], IMAGE),
    (&[0x52, 0x54, 0x52, 1, 1, 0x90, 0x4e, 4, 0], TOTALS),
    (&[0x52, 0x54, 0x52, 1, 1, 0x90, 0x4e, 4, 0, 0x81, 0], TOTALS),
    (
        &[0x52, 0x54, 0x52, 1, 1, 0x90, 0x4e, 4, 0, 0x91, 0x4e],
        TOTALS,
    ),
    (&[0x52, 0x54, 0x52, 1, 1, 0x90, 0x4e, 4, 0, 1, 0], END),
    // Each version has its own limits.
    (&[0x52, 0x54, 0x52, 1, 1, 0xa1, 0x8d, 6, 4, 0, 0], HEADER),
    (&[0x52, 0x54, 0x52, 2, 1, 0xc1, 0x84, 0x3d, 4, 0, 0], HEADER),
    (&[0x52, 0x54, 0x52, 2, 5, 0xc0, 0x84, 0x3d, 4, 0, 0], HEADER),
    (
        &[0x52, 0x54, 0x52, 2, 0x10, 0x91, 0xa1, 0x0f, 4, 0, 0],
        HEADER,
    ),
    (&[0x52, 0x54, 0x52, 2, 0, 1, 4, 0], HEADER),
    (&[0x52, 0x54, 0x52, 2, 0x11, 1, 4, 0], HEADER),
    (&[0x52, 0x54, 0x52, 2, 1, 1, 4, 0, 1, 0], END),
];

// Damaged fourth parts of version 2, of three cores with totals 5, 5 and 6.
const BY_TARGET_DAMAGED: [&[u8]; 12] = [
    // Two edges to one instruction whose source cores fall, or are the same.
    &[2, 4, 2, 5, 0, 1, 3, 0, 1, 4, 1, 4],
    &[2, 4, 1, 3, 0, 1, 1, 0, 0],
    // The first edge leads to no instruction.
    &[1, 0, 1, 3, 0, 0],
    // The core itself, and a core that there isn't.
    &[1, 4, 0, 3, 0, 0],
    &[1, 4, 3, 3, 0, 0],
    // No rise of the source, and counts above the totals.
    &[1, 4, 1, 0, 0, 0],
    &[1, 4, 1, 6, 0, 0],
    &[1, 6, 1, 5, 0, 0],
    &[2, 4, 1, 3, 1, 1, 3, 0, 0],
    &[1, 4, 1, 0xff, 0xff, 0xff, 0xff, 0x0f, 0, 0],
    // A count that no file can hold, and a number that isn't the shortest.
    &[0xff, 0xff, 0xff, 0xff, 0x0f, 4, 1, 3],
    &[1, 4, 0x81, 0, 3, 0, 0],
];

// Damaged totals and logs of two cores, and the part that is named.
const TWO_CORES_DAMAGED: [(&[u8], u8); 12] = [
    (&[0x91, 0x4e, 3, 1, 2, 2, 0, 1, 1, 2, 2, 0], TOTALS),
    (&[3, 3, 0x81, 0, 2, 2, 0, 1, 1, 2, 2, 0], REDUCED),
    (&[3, 3, 0xff, 0xff, 0xff, 0xff, 0x0f], REDUCED),
    (&[3, 3, 0x80, 0x80, 0x80, 0x80, 0x10], REDUCED),
    (&[3, 3, 1, 0, 2, 0, 0, 0], REDUCED),
    (&[3, 3, 1, 2, 4, 0, 0, 0], REDUCED),
    (
        &[3, 3, 0, 0, 1, 2, 1, 1, 0xff, 0xff, 0xff, 0xff, 0x0f, 1, 0],
        REGULATED,
    ),
    (&[3, 3, 0, 0, 1, 0, 1, 1, 0], REGULATED),
    (&[3, 3, 0, 0, 2, 2, 1, 1, 1, 1, 1, 2, 3, 0], REGULATED),
    (&[3, 3, 1, 2, 2, 0, 1, 1, 2, 2], REGULATED),
    (&[3, 3, 1, 2, 2, 0, 1, 1, 2, 2, 0, 0], END),
    (&[3, 3, 0, 0, 1, 1, 1, 1, 0, 0, 0], END),
];

// Whether a reading of bytes names the part.
fn is_named(alloc: Global, bytes: &[u8], part: u8) -> bool {
    read(alloc, bytes).err() == Some(CodecFault::Bad { part })
}

// The first part that has no reading is named.
#[test]
fn damaged(rt: HostRuntime) -> Result<(), Fail> {
    for &(bytes, part) in &ONE_CORE_DAMAGED {
        assert!(rt; is_named(rt.alloc(), bytes, part), "in {bytes:?}");
    }
    for &(rest, part) in &TWO_CORES_DAMAGED {
        let bytes = joined(rt.alloc(), &TWO_CORES, rest)?;
        assert!(rt; is_named(rt.alloc(), &bytes, part), "in {rest:?}");
    }
    for &rest in &BY_TARGET_DAMAGED {
        let front = [0x52, 0x54, 0x52, 2, 3, 0x90, 0x4e, 0x40, 0, 5, 5, 6];
        let bytes = joined(rt.alloc(), &front, rest)?;
        assert!(rt; is_named(rt.alloc(), &bytes, REDUCED), "in {rest:?}");
    }
    Ok(())
}

// The part that is cut after so many bytes of the recording below.
fn part_after(len: usize) -> u8 {
    match len {
        0..=8 => HEADER,
        9..=20 => IMAGE,
        21 | 22 => TOTALS,
        23..=26 => REDUCED,
        _ => REGULATED,
    }
}

// A recording that is cut after each of its bytes.
#[test]
fn cut(rt: HostRuntime) -> Result<(), Fail> {
    let bytes = joined(rt.alloc(), &TWO_CORES, &[3, 3, 1, 2, 2, 0, 1, 1, 2, 2, 0])?;
    for len in 0..bytes.len() {
        assert!(rt;
            is_named(rt.alloc(), &bytes[..len], part_after(len)),
            "after {len} bytes"
        );
    }
    Ok(())
}
