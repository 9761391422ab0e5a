//! Certificates that were worked out by hand.
ghost use Rattle.race_log.specs.Validity.{Valid};
ghost use Rattle.certificate_codec.specs.Validity.{IsCertificate};

use crate::bytes::joined;
use certificate_codec::{CLOCKS, Certificate, END, EdgeEnds, read_certificate, spell_certificate};
use log_codec::{CodecFault, REGULATED, fits_old, spell, spell_v1};
use race_log::Recording;
use row_texts::HANDED_OVER_REDUCED;
use rtr_types::{Edge, Instr};
use std::alloc::{AllocError, Global};
use std::test::Fail;

/// Two cores, of which the first retired five instructions and the second four, with edges from 0:3 to 1:2
/// and from 1:3 to 0:4. The vectors and the clocks follow.
const FRONT: [u8; 19] = [
    0x52, 0x54, 0x52, 2, 2, 0x90, 0x4e, 0x20, 0, 5, 4, 1, 4, 1, 3, 1, 2, 0, 3,
];

/// What follows, and the part that is named, or 0 where it is a certificate.
struct Row {
    rest: &'static [u8],
    part: u8,
}

// In turn: exact clocks, and others that are no good; no vectors; the first core has an entry too few or too
// many; a count above its core's total; an entry that is cut, and a number that isn't the shortest; one
// byte more.
static ROWS: [Row; 10] = [
    Row {
        rest: &[0, 0, 2, 3, 0, 4, 3, 2, 3, 2, 3, 3],
        part: 0,
    },
    Row {
        rest: &[0, 0, 2, 5, 4, 0, 0, 2, 0, 0, 1, 1],
        part: 0,
    },
    Row {
        rest: &[0],
        part: REGULATED,
    },
    Row {
        rest: &[0, 0],
        part: CLOCKS,
    },
    Row {
        rest: &[0, 0, 1, 3, 0, 2, 3, 2, 3, 3],
        part: CLOCKS,
    },
    Row {
        rest: &[0, 0, 3, 3, 0, 4, 3, 5, 3, 2, 3, 2, 3, 3],
        part: CLOCKS,
    },
    Row {
        rest: &[0, 0, 2, 3, 0, 4, 5, 2, 3, 2, 3, 3],
        part: CLOCKS,
    },
    Row {
        rest: &[0, 0, 2, 3, 0, 4, 3, 2, 3, 2, 3],
        part: CLOCKS,
    },
    Row {
        rest: &[0, 0, 2, 3, 0, 4, 0x83, 0, 2, 3, 2, 3, 3],
        part: CLOCKS,
    },
    Row {
        rest: &[0, 0, 2, 3, 0, 4, 3, 2, 3, 2, 3, 3, 0],
        part: END,
    },
];

/// Whether the certificate is spelled by the bytes.
fn is_spelled(alloc: Global, certificate: &Certificate, bytes: &[u8]) -> Result<bool, AllocError>
    requires { IsCertificate certificate.now }
{
    let again = spell_certificate(alloc, certificate)?;
    Ok(again.as_slice() == bytes)
}

/// The part that a reading of bytes names; 0 where they are a certificate that is spelled so.
fn part_of(alloc: Global, bytes: &[u8]) -> Result<u8, AllocError> {
    match read_certificate(alloc, bytes) {
        Ok(certificate) => Ok(if is_spelled(alloc, &certificate, bytes)? {
            0
        } else {
            u8::MAX
        }),
        Err(CodecFault::Bad { part }) => Ok(part),
        Err(CodecFault::OutOfMemory) => Err(AllocError),
    }
}

// What is read is spelled by the bytes that it was read from, and else the first part without a reading is named.
#[test]
fn what_is_read(rt: HostRuntime) -> Result<(), Fail> {
    for row in &ROWS {
        let bytes = joined(rt.alloc(), &FRONT, row.rest)?;
        assert!(rt; part_of(rt.alloc(), &bytes)? == row.part, "{:?}", row.rest);
    }
    Ok(())
}

static EDGES: [Edge; 2] = [
    Edge {
        from: Instr { core: 0, count: 3 },
        to: Instr { core: 1, count: 2 },
    },
    Edge {
        from: Instr { core: 1, count: 3 },
        to: Instr { core: 0, count: 4 },
    },
];

// The edges and their ends.
#[test]
fn where_edges_end(rt: HostRuntime) -> Result<(), Fail> {
    let bytes = joined(rt.alloc(), &FRONT, ROWS[0].rest)?;
    let certificate = read_certificate(rt.alloc(), &bytes)?;
    let ends = EdgeEnds::new(rt.alloc(), &certificate.recording)?;
    assert!(rt; ends.edges() == EDGES.as_slice());
    assert!(rt; ends.recording().params.cores == 2);
    assert!(rt; ends.of_core(0) == [3, 4].as_slice());
    assert!(rt; ends.of_core(1) == [2, 3].as_slice());
    Ok(())
}

/// `HANDED_OVER_REDUCED`, a recording in version 1, in version 2.
const HANDED_OVER: &[u8] = &[
    0x52, 0x54, 0x52, 2, 2, 0x90, 0x4e, 0x20, 0x20, 0x63, 0x1a, 5, 0, 0x93, 2, 0x70, 0, 0x23, 0x20,
    0x50, 4, 3, 0x23, 0, 4, 0x73, 0, 0, 0, 0x83, 0x23, 0, 4, 0x23, 0x20, 0xa0, 4, 0x73, 0, 0, 0, 5,
    4, 1, 4, 1, 3, 1, 2, 0, 3, 0, 0,
];

/// Its clocks.
const HANDED_OVER_CLOCKS: &[u8] = &[2, 3, 0, 4, 3, 2, 3, 2, 3, 3];

/// Whether the recording is spelled by these bytes in version 1 and by those in version 2.
fn has_both_spellings(
    alloc: Global,
    recording: &Recording,
    old: &[u8],
    new: &[u8],
) -> Result<bool, AllocError>
    requires { Valid recording.now }
{
    if !fits_old(&recording.params) {
        return Ok(false);
    }
    let before = spell_v1(alloc, recording)?;
    let after = spell(alloc, recording)?;
    Ok(before.as_slice() == old && after.as_slice() == new)
}

// A certificate of a recording in version 1 is read, its recording keeps these bytes, and it is written in version 2.
#[test]
fn a_certificate_in_version_1(rt: HostRuntime) -> Result<(), Fail> {
    let alloc = rt.alloc();
    let old = joined(alloc, &HANDED_OVER_REDUCED, HANDED_OVER_CLOCKS)?;
    let new = joined(alloc, HANDED_OVER, HANDED_OVER_CLOCKS)?;
    let certificate = read_certificate(alloc, &old)?;
    assert!(rt; is_spelled(alloc, &certificate, &new)?);
    let recording = &certificate.recording;
    assert!(rt; has_both_spellings(alloc, recording, &HANDED_OVER_REDUCED, HANDED_OVER)?);
    Ok(())
}
