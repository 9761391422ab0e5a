//! Recordings and the bytes that spell them in each version.
ghost use Rattle.race_log.specs.Validity.{Valid};

use crate::bytes::joined;
use log_codec::{fits_old, read, spell, spell_v1};
use race_log::Recording;
use rtr_types::CORES_MAX;
use std::alloc::{AllocError, Global};
use std::test::Fail;

// A recording in both versions: the header after the version and the parts up to the totals, the fourth
// part pair by pair and target by target, and the fifth part.
struct Worked {
    front: &'static [u8],
    by_pair: &'static [u8],
    by_target: &'static [u8],
    rest: &'static [u8],
}

// Recordings of one core, of none of its instructions, of the shortest and the longest numbers; of two
// cores with one edge, of the longest numbers, with edges both ways, with strides; of three cores with an
// edge into two of them, with two edges to one instruction, and with edges from two cores in turn.
static WORKED: [Worked; 11] = [
    Worked {
        front: &[1, 0x90, 0x4e, 0x80, 0x80, 1, 4, 0x73, 0, 0, 0, 1],
        by_pair: &[],
        by_target: &[],
        rest: &[],
    },
    Worked {
        front: &[1, 0x90, 0x4e, 0x80, 0x80, 1, 0, 0],
        by_pair: &[],
        by_target: &[],
        rest: &[],
    },
    Worked {
        front: &[1, 1, 4, 0, 0],
        by_pair: &[],
        by_target: &[],
        rest: &[],
    },
    Worked {
        front: &[
            8, 0xa0, 0x8d, 6, 0x80, 0x80, 0x10, 0, 0xa0, 0x8d, 6, 0, 0, 0, 0, 0, 0, 0,
        ],
        by_pair: &[0; 56],
        by_target: &[0; 8],
        rest: &[0; 56],
    },
    Worked {
        front: &[2, 0x90, 0x4e, 0x10, 0, 3, 3],
        by_pair: &[1, 2, 2, 0],
        by_target: &[0, 1, 2, 0, 2],
        rest: &[1, 1, 2, 2, 0],
    },
    Worked {
        front: &[
            2, 0xa0, 0x8d, 6, 0x80, 0x80, 0x10, 0, 0xa0, 0x8d, 6, 0xa0, 0x8d, 6,
        ],
        by_pair: &[1, 0xa0, 0x8d, 6, 0xa0, 0x8d, 6, 0],
        by_target: &[0, 1, 0xa0, 0x8d, 6, 0, 0xa0, 0x8d, 6],
        rest: &[1, 2, 1, 1, 0x9f, 0x8d, 6, 0x9f, 0x8d, 6, 0],
    },
    Worked {
        front: &[2, 0x90, 0x4e, 0x10, 0, 5, 4],
        by_pair: &[1, 2, 3, 1, 4, 3],
        by_target: &[1, 4, 1, 3, 1, 2, 0, 3],
        rest: &[1, 1, 3, 2, 1, 1, 3, 4],
    },
    Worked {
        front: &[2, 0x90, 0x4e, 0x10, 0, 6, 8],
        by_pair: &[3, 3, 3, 1, 1, 3, 1, 0],
        by_target: &[0, 3, 3, 0, 3, 1, 0, 1, 3, 0, 1],
        rest: &[2, 2, 3, 3, 1, 1, 1, 5, 7, 0],
    },
    Worked {
        front: &[3, 0x90, 0x4e, 0x40, 0, 5, 5, 6],
        by_pair: &[0, 0, 0, 1, 4, 4, 1, 4, 5, 0],
        by_target: &[1, 4, 2, 5, 0, 1, 4, 1, 4],
        rest: &[0, 0, 0, 1, 1, 4, 4, 1, 1, 5, 4, 0],
    },
    Worked {
        front: &[3, 0x90, 0x4e, 0x40, 0, 5, 5, 6],
        by_pair: &[0, 0, 1, 4, 3, 1, 4, 4, 1, 4, 5, 0],
        by_target: &[2, 4, 1, 3, 0, 2, 5, 0, 1, 4, 1, 4],
        rest: &[0; 6],
    },
    Worked {
        front: &[3, 0x90, 0x4e, 0x40, 0, 5, 5, 6],
        by_pair: &[0, 2, 1, 1, 1, 2, 0, 2, 1, 1, 3, 1, 0, 0],
        by_target: &[0, 0, 4, 1, 0, 1, 0, 1, 1, 1, 0, 2, 2, 1, 1],
        rest: &[0; 6],
    },
];

// A recording of version 2 that is beyond the limits of version 1: its bytes after the version, and how
// many bytes 0 follow them.
struct Beyond {
    front: &'static [u8],
    zeros: usize,
}

// Recordings of one core and of four with the greatest limit, of two with the longest numbers in each part,
// of nine cores, and of sixteen with as many instructions as they may have together.
static ONLY_NEW: [Beyond; 5] = [
    Beyond {
        front: &[1, 0xc0, 0x84, 0x3d, 4, 0, 0xc0, 0x84, 0x3d],
        zeros: 0,
    },
    Beyond {
        front: &[4, 0xc0, 0x84, 0x3d, 4, 0],
        zeros: 20,
    },
    Beyond {
        front: &[
            2, 0xc0, 0x84, 0x3d, 0x80, 0x80, 0x10, 0, 0xc0, 0x84, 0x3d, 0xc0, 0x84, 0x3d, 0, 1,
            0xc0, 0x84, 0x3d, 0, 0xc0, 0x84, 0x3d, 1, 1, 0xc0, 0x84, 0x3d, 0xc0, 0x84, 0x3d,
        ],
        zeros: 1,
    },
    Beyond {
        front: &[9, 1, 4, 0],
        zeros: 90,
    },
    Beyond {
        front: &[0x10, 0x90, 0xa1, 0x0f, 4, 0, 0x90, 0xa1, 0x0f],
        zeros: 271,
    },
];

// The bytes of a worked recording in a version.
fn spelled(alloc: Global, version: u8, row: &Worked) -> Result<Vec<u8>, AllocError> {
    let mut out = joined(alloc, &[0x52, 0x54, 0x52, version], row.front)?;
    out.extend_from_slice(if version == 1 {
        row.by_pair
    } else {
        row.by_target
    })?;
    out.extend_from_slice(row.rest)?;
    Ok(out)
}

// Whether the recording is spelled so in version 2.
fn is_new(alloc: Global, recording: &Recording, bytes: &[u8]) -> Result<bool, AllocError>
    requires { Valid recording.now }
{
    Ok(spell(alloc, recording)?.as_slice() == bytes)
}

// Whether the recording is within the limits of version 1 and spelled so in it.
fn is_old(alloc: Global, recording: &Recording, bytes: &[u8]) -> Result<bool, AllocError>
    requires { Valid recording.now }
{
    if !fits_old(&recording.params) {
        return Ok(false);
    }
    Ok(spell_v1(alloc, recording)?.as_slice() == bytes)
}

// Whether what is read from bytes is spelled so in version 2.
fn reads_new(alloc: Global, bytes: &[u8], new: &[u8]) -> Result<bool, Fail> {
    let recording = read(alloc, bytes)?;
    Ok(is_new(alloc, &recording, new)?)
}

// Whether it is spelled so in version 1.
fn reads_old(alloc: Global, bytes: &[u8], old: &[u8]) -> Result<bool, Fail> {
    let recording = read(alloc, bytes)?;
    Ok(is_old(alloc, &recording, old)?)
}

// Whether the row's bytes in the one version and in the other are read alike.
fn are_alike(alloc: Global, old: &[u8], new: &[u8]) -> Result<bool, Fail> {
    Ok(
        reads_new(alloc, old, new)?
            && reads_new(alloc, new, new)?
            && reads_old(alloc, old, old)?
            && reads_old(alloc, new, old)?,
    )
}

// What is read is spelled by the bytes that it was read from, in its version, and by those of the other.
#[test]
fn worked_rows(rt: HostRuntime) -> Result<(), Fail> {
    for row in &WORKED {
        let old = spelled(rt.alloc(), 1, row)?;
        let new = spelled(rt.alloc(), 2, row)?;
        assert!(rt; are_alike(rt.alloc(), &old, &new)?, "{:?}", row.front);
    }
    Ok(())
}

// The bytes of a recording that is beyond the limits of version 1.
fn spelled_beyond(alloc: Global, row: &Beyond) -> Result<Vec<u8>, AllocError> {
    let mut bytes = joined(alloc, &[0x52, 0x54, 0x52, 2], row.front)?;
    for _ in 0..row.zeros {
        bytes.push(0)?;
    }
    Ok(bytes)
}

// Whether the bytes are those of a recording without a spelling in version 1.
fn is_beyond(alloc: Global, bytes: &[u8]) -> Result<bool, Fail> {
    let recording = read(alloc, bytes)?;
    Ok(!fits_old(&recording.params) && is_new(alloc, &recording, bytes)?)
}

// Version 2 goes beyond the limits of version 1.
#[test]
fn beyond_the_old_limits(rt: HostRuntime) -> Result<(), Fail> {
    for row in &ONLY_NEW {
        let bytes = spelled_beyond(rt.alloc(), row)?;
        assert!(rt; is_beyond(rt.alloc(), &bytes)?, "{:?}", row.front);
    }
    Ok(())
}

// Appends the edges into a core from instructions 1 and 2 of each other to its own.
fn put_edges_into(out: &mut Vec<u8>, target: u8) -> Result<(), AllocError> {
    out.push(2 * (CORES_MAX - 1))?;
    for _ in 0..2 {
        let mut rise = 1;
        for source in 0..CORES_MAX {
            if source != target {
                out.extend_from_slice(&[rise, source, 1])?;
                rise = 0;
            }
        }
    }
    Ok(())
}

// Edges between all pairs of as many cores as there can be: each core's instructions 1 and 2 come after
// those of every other core with the same counts.
fn all_pairs(alloc: Global) -> Result<Vec<u8>, AllocError> {
    let mut bytes = joined(alloc, &[0x52, 0x54, 0x52, 2], &[CORES_MAX, 2, 4, 0])?;
    for _ in 0..CORES_MAX {
        bytes.push(2)?;
    }
    for target in 0..CORES_MAX {
        put_edges_into(&mut bytes, target)?;
    }
    for _ in 0..CORES_MAX {
        for _ in 1..CORES_MAX {
            bytes.push(0)?;
        }
    }
    Ok(bytes)
}

#[test]
fn edges_between_all_pairs(rt: HostRuntime) -> Result<(), Fail> {
    let bytes = all_pairs(rt.alloc())?;
    let recording = read(rt.alloc(), &bytes)?;
    for edges in recording.reduced.as_slice() {
        assert!(rt; edges.as_slice() == [(1, 1), (2, 2)].as_slice());
    }
    assert!(rt; is_new(rt.alloc(), &recording, &bytes)?);
    Ok(())
}
