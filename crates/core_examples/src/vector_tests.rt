//! Strided vectors in a row, of one edge and at the greatest counts; pairs of cores.
ghost use Rattle.std.specs.Prelude.{◌≡◌};

use rtr_types::{pair_at, pair_count, pair_of};
use stride_vector::StrideVector;

fn vector(n: u32, a0: u32, b0: u32, sa: u32, sb: u32) -> StrideVector
    ensures { result ≡ record { n = n; a0 = a0; b0 = b0; sa = sa; sb = sb } }
{
    StrideVector { n, a0, b0, sa, sb }
}

// Three edges, each one instruction after the one before it.
#[test]
fn three_in_a_row(rt: HostRuntime) {
    let v = vector(3, 3, 3, 1, 2);
    assert!(rt; (v.position(1), v.last(), v.next()) == ((4, 5), (5, 7), Some((6, 9))));
    for (b, a) in [
        (2, None),
        (3, Some(3)),
        (4, None),
        (5, Some(4)),
        (7, Some(5)),
        (9, None),
    ] {
        assert!(rt; v.source_of(b) == a, "at {b}");
    }
}

// One edge, and one that ends at the greatest counts.
#[test]
fn ends(rt: HostRuntime) {
    let one = vector(1, 3, 2, 0, 0);
    assert!(rt; (one.last(), one.next()) == ((3, 2), None));
    assert!(rt; (one.source_of(2), one.source_of(3)) == (Some(3), None));
    let high = vector(2, 1, 1, u32::MAX - 1, 1);
    assert!(rt; (high.last(), high.next()) == ((u32::MAX, 2), None));
}

// The six pairs of three cores.
#[test]
fn three_cores(rt: HostRuntime) {
    let rows = [
        (0, 1, 0),
        (0, 2, 1),
        (1, 0, 2),
        (1, 2, 3),
        (2, 0, 4),
        (2, 1, 5),
    ];
    for (from, to, place) in rows {
        assert!(rt; from < 3 && to < 3 && from != to);
        assert!(rt; pair_at(3, from, to) == place);
    }
    assert!(rt; (pair_count(3), pair_count(1), pair_of(3, 4)) == (6, 0, (2, 0)));
}
