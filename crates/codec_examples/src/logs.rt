//! What recordings hold: their edges, where each comes from, and copies of them.
ghost use Rattle.std.specs.Prelude.{IfOk};
ghost use Rattle.race_log.specs.Validity.{Valid};

use crate::bytes::{TWO_CORES, joined};
use log_codec::{read, read_front, spell};
use race_log::Recording;
use rtr_types::{Instr, Which};
use std::alloc::{AllocError, Global};
use std::test::Fail;

// Three edges from the first core to the second, and the same as two vectors.
const PARTS: [u8; 20] = [6, 8, 3, 3, 3, 1, 1, 3, 1, 0, 2, 2, 3, 3, 1, 1, 1, 5, 7, 0];

// Whether each pair has no edges or these.
fn has_edges_alone(recording: &Recording, wanted: &[(u32, u32)]) -> bool {
    for edges in recording.reduced.as_slice() {
        if edges.len() != 0 && edges.as_slice() != wanted {
            return false;
        }
    }
    true
}

// The edges and the strides that the bytes say, before the further parts of a certificate.
#[test]
fn logs(rt: HostRuntime) -> Result<(), Fail> {
    let front = joined(rt.alloc(), &TWO_CORES, &PARTS)?;
    let bytes = joined(rt.alloc(), &front, &[9])?;
    let (recording, len) = read_front(rt.alloc(), &bytes)?;
    assert!(rt; len == 41);
    assert!(rt; recording.edge_count(Which::Reduced) == 3);
    assert!(rt; recording.edge_count(Which::Regulated) == 3);
    assert!(rt; has_edges_alone(&recording, &[(3, 3), (4, 4), (5, 7)]));
    Ok(())
}

// The recording with these parts.
fn two_cores(alloc: Global) -> Result<Recording, Fail>
    ensures { IfOk result Valid }
{
    let bytes = joined(alloc, &TWO_CORES, &PARTS)?;
    Ok(read(alloc, &bytes)?)
}

// The counts of the second core, and that of the first from which both logs have an edge to it.
static SOURCES: [(u32, Option<u32>); 6] = [
    (2, None),
    (3, Some(3)),
    (4, Some(4)),
    (5, None),
    (7, Some(5)),
    (8, None),
];

// Whether both logs have this source on core `of`.
fn has_source(recording: &Recording, of: u8, at: Instr, source: Option<u32>) -> bool
    requires { Valid recording.now }
{
    recording.source(Which::Reduced, of, at) == source
        && recording.source(Which::Regulated, of, at) == source
}

// Each of the recording's edges is found from its target, and no other; none from a core to itself, nor
// where a core isn't the recording's.
#[test]
fn sources(rt: HostRuntime) -> Result<(), Fail> {
    let recording = two_cores(rt.alloc())?;
    for &(count, source) in &SOURCES {
        let at = Instr { core: 1, count };
        let back = Instr { core: 0, count };
        assert!(rt; has_source(&recording, 0, at, source), "at {count}");
        assert!(rt; has_source(&recording, 1, back, None), "at {count}");
        assert!(rt; has_source(&recording, 1, at, None), "at {count}");
        assert!(rt; has_source(&recording, 2, at, None), "at {count}");
        assert!(rt; has_source(&recording, 0, Instr { core: 2, count }, None));
    }
    Ok(())
}

// Whether the two are spelled alike.
fn is_same(alloc: Global, recording: &Recording, other: &Recording) -> Result<bool, AllocError>
    requires one { Valid recording.now }
    requires other { Valid other.now }
{
    let bytes = spell(alloc, recording)?;
    let others = spell(alloc, other)?;
    Ok(bytes == others)
}

// A copy is the same, and has the image.
#[test]
fn copies(rt: HostRuntime) -> Result<(), Fail> {
    let recording = two_cores(rt.alloc())?;
    let copy = recording.copied(rt.alloc())?;
    assert!(rt; is_same(rt.alloc(), &recording, &copy)?);
    assert!(rt; copy.into_image().as_slice() == &TWO_CORES[9..]);
    Ok(())
}
