//! The vectors of one pair of cores, edge by edge.
ghost use Rattle.std.specs.Prelude.{◌≡◌, ◌<◌, ◌^◌, length};

use access_times::Carry;
use edge_regulate::Regulator;
use know_history::Known;
use rtr_types::{Edge, Instr, Items};
use std::alloc::{AllocError, Global};
use std::process::Abort;
use std::test::Fail;
use stride_vector::StrideVector;

// The vectors of two cores. At each retirement of core 1 so many instructions of core 0 are known. Where the second
// number isn't 0, an edge leads to it from core 0's instruction with that count.
fn regulated(alloc: Global, rows: &[(u32, u32)]) -> Result<Items<Items<StrideVector>>, AllocError>
    requires { length rows.now < 2 ^ 32 }
{
    let mut regulator = Regulator::new(alloc, 2)?;
    let mut at = Instr { core: 1, count: 0 };
    for (known, source) in rows {
        regulator.ready()?;
        at.count += 1;
        let mut carry = Known::none();
        carry.retire(Instr {
            core: 0,
            count: *known,
        });
        regulator.retired(at, &carry);
        if *source > 0 {
            let from = Instr {
                core: 0,
                count: *source,
            };
            regulator.edge(Edge { from, to: at });
        }
    }
    Ok(regulator.finish())
}

// Three edges, of which the last has a source that is known two instructions before its target, or is not.
#[test]
fn strides(rt: HostRuntime) -> Result<(), Fail> {
    let alloc = rt.alloc();
    let one = StrideVector {
        n: 3,
        a0: 3,
        b0: 3,
        sa: 1,
        sb: 1,
    };
    let first = StrideVector {
        n: 2,
        a0: 3,
        b0: 3,
        sa: 1,
        sb: 1,
    };
    let second = StrideVector {
        n: 1,
        a0: 5,
        b0: 7,
        sa: 0,
        sb: 0,
    };
    for (known, count, begin, end) in [(5, 1, one, one), (4, 2, first, second)] {
        let rows = [(0, 0), (0, 0), (3, 3), (4, 4), (known, 0), (5, 0), (5, 5)];
        let lists = regulated(alloc, &rows)?;
        are(&rt, lists.as_slice(), count, (begin, end));
    }
    Ok(())
}

// Of two lists the first has so many vectors, with these as its ends.
fn are(
    rt: &impl Abort,
    lists: &[Items<StrideVector>],
    count: usize,
    ends: (StrideVector, StrideVector),
) {
    assert!(rt; lists.len() == 2);
    let vectors = lists[0].as_slice();
    assert!(rt; vectors.len() == count);
    assert!(rt; vectors.first() == Some(&ends.0) && vectors.last() == Some(&ends.1));
}
