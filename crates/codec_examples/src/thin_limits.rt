//! How many vectors and positions are thinned.
ghost use Rattle.std.specs.Prelude.{IfOk};
ghost use Rattle.race_log.specs.Validity.{Valid};

use log_codec::read;
use race_log::Recording;
use replay_audit::audit;
use rtr_types::Which;
use std::alloc::Global;
use std::test::Fail;
use varint_core::put_u32;
use vector_reduce::{ThinFault, thin};

/// Two cores that go round one instruction until they have retired so many, and vectors from each count of the
/// first to that of the second, of so many positions.
fn looping(alloc: Global, total: u32, vectors: u32, positions: u32) -> Result<Recording, Fail>
    ensures { IfOk result Valid }
{
    let mut bytes = Vec::from_slice(alloc, &[0x52, 0x54, 0x52, 2, 2])?;
    put_u32(&mut bytes, total)?;
    bytes.extend_from_slice(&[4, 4, 0x6f, 0, 0, 0])?;
    put_u32(&mut bytes, total)?;
    put_u32(&mut bytes, total)?;
    bytes.extend_from_slice(&[0, 0])?;
    put_u32(&mut bytes, vectors)?;
    for before in 0..vectors {
        put_u32(&mut bytes, positions)?;
        put_u32(&mut bytes, before + 1)?;
        put_u32(&mut bytes, before + 1)?;
        if positions > 1 {
            bytes.extend_from_slice(&[1, 1])?;
        }
    }
    bytes.push(0)?;
    Ok(read(alloc, &bytes)?)
}

/// How many vectors and positions there may be, and the numbers that are too many.
struct Many {
    total: u32,
    vectors: u32,
    positions: u32,
    answer: Option<ThinFault>,
}

static MANY: [Many; 4] = [
    Many {
        total: 4100,
        vectors: 512,
        positions: 1,
        answer: None,
    },
    Many {
        total: 4100,
        vectors: 4097,
        positions: 1,
        answer: Some(ThinFault::TooMany {
            vectors: 4097,
            edges: 4097,
        }),
    },
    Many {
        total: 65_540,
        vectors: 1,
        positions: 65_536,
        answer: None,
    },
    Many {
        total: 65_540,
        vectors: 1,
        positions: 65_537,
        answer: Some(ThinFault::TooMany {
            vectors: 1,
            edges: 65_537,
        }),
    },
];

/// Why nothing of the recording is left out; none where it is thinned.
fn refusal(alloc: Global, recording: Recording) -> Result<Option<ThinFault>, Fail>
    requires { Valid recording }
{
    let audited = audit(alloc, recording, Which::Regulated)?;
    Ok(thin(alloc, &audited).err())
}

#[test]
fn too_many(rt: HostRuntime) -> Result<(), Fail> {
    for row in &MANY {
        let recording = looping(rt.alloc(), row.total, row.vectors, row.positions)?;
        assert!(rt;
            refusal(rt.alloc(), recording)? == row.answer,
            "{} vectors",
            row.vectors
        );
    }
    Ok(())
}
