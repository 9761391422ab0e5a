//! All edges of a log.
ghost use Rattle.std.specs.Prelude.{◌≡◌, ◌<◌, ◌++◌, IfOk, OnOk, map};
ghost use Rattle.std.specs.List.{flat_map};
ghost use Rattle.rtr_types.specs.Pairs.{pair_count};
ghost use Rattle.stride_vector.specs.Vectors.{IsVector, edges_of};
ghost use Rattle.race_log.specs.Sources.{AreApart, edge_between, edges_at, log_edges};
ghost use Rattle.race_log.specs.Validity.{Valid};

use race_log::Recording;
use rtr_types::{Edge, Instr, Items, Which, pair_count, pair_of};
use std::alloc::{AllocError, Global};
use stride_vector::StrideVector;

/// All edges of the log, pair of cores by pair, and those of a pair by rising counts.
pub(crate) fn edges_of(
    alloc: Global,
    recording: &Recording,
    which: Which,
) -> Result<Items<Edge>, AllocError>
    requires { Valid recording.now }
    ensures { IfOk result (λ list. list ≡ log_edges which recording.now) }
{
    let mut list = Items::new(alloc);
    for place in 0..pair_count(recording.params.cores) {
        put_pair(&mut list, recording, which, place)?;
    }
    Ok(list)
}

/// Puts the edges of the pair of cores at a place behind others.
fn put_pair(
    list: &mut Items<Edge>,
    recording: &Recording,
    which: Which,
    place: usize,
) -> Result<(), AllocError>
    requires valid { Valid recording.now }
    requires place { place < pair_count recording.now.params.cores }
    ensures { OnOk result (list.new ≡ list.old ++ edges_at which recording.now place) }
{
    let (from, to) = pair_of(recording.params.cores, place);
    match which {
        Which::Reduced => put_counts(list, from, to, recording.reduced_between(from, to)),
        Which::Regulated => put_vectors(list, from, to, recording.regulated_between(from, to)),
    }
}

/// The edge between two cores at these counts.
fn edge_between(from: u8, to: u8, counts: (u32, u32)) -> Edge
    ensures { result ≡ edge_between from to counts }
{
    Edge {
        from: Instr {
            core: from,
            count: counts.0,
        },
        to: Instr {
            core: to,
            count: counts.1,
        },
    }
}

/// Puts the edges between two cores at these counts behind others.
fn put_counts(
    list: &mut Items<Edge>,
    from: u8,
    to: u8,
    counts: &[(u32, u32)],
) -> Result<(), AllocError>
    ensures { OnOk result (list.new ≡ list.old ++ map (edge_between from to) counts.now) }
{
    for both in counts {
        list.push(edge_between(from, to, *both))?;
    }
    Ok(())
}

/// Puts the edges of these vectors between two cores behind others.
fn put_vectors(
    list: &mut Items<Edge>,
    from: u8,
    to: u8,
    vectors: &[StrideVector],
) -> Result<(), AllocError>
    requires { AreApart vectors.now }
    ensures { OnOk result (list.new ≡ list.old ++ map (edge_between from to) (flat_map edges_of vectors.now)) }
{
    for vector in vectors {
        put_vector(list, from, to, vector)?;
    }
    Ok(())
}

/// Puts the edges of a vector between two cores behind others.
fn put_vector(
    list: &mut Items<Edge>,
    from: u8,
    to: u8,
    vector: &StrideVector,
) -> Result<(), AllocError>
    requires { IsVector vector.now }
    ensures { OnOk result (list.new ≡ list.old ++ map (edge_between from to) (edges_of vector.now)) }
{
    for k in 0..vector.n {
        list.push(edge_between(from, to, vector.position(k)))?;
    }
    Ok(())
}
