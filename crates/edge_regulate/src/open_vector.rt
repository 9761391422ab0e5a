//! The newest vector of a pair of cores, which may go on.
ghost use Rattle.std.specs.Prelude.{◌≡◌, ◌<◌, ◌≤◌, ◌⊎◌, All, IfNone, IfSome, Some, None, true, false};
ghost use Rattle.std.specs.Prelude.{if◌then◌else◌, length};
ghost use Rattle.stride_vector.specs.Vectors.{last_of};
ghost use Rattle.edge_regulate.specs.Awaiting.{awaited_with, begun, newest, up_to};
ghost use Rattle.edge_regulate.specs.Greedy.{opened, second, takes, taking};
ghost use Rattle.rtr_types.specs.PairEdges.{counts};
ghost use Rattle.edge_regulate.specs.Regulated.{IsGrowing, end_target};

use crate::seat::Awaited;
use rtr_types::Edge;
use stride_vector::StrideVector;

/// A pair's newest vector once it has taken an edge, and what is awaited of it then.
#[derive(Clone, Copy)]
pub(crate) struct Taken {
    pub(crate) vector: StrideVector,
    pub(crate) awaited: Awaited,
}

/// The vector that the edge opens.
pub(crate) fn opened(edge: Edge) -> StrideVector
    requires source { 1 ≤ edge.from.count }
    requires target { 1 ≤ edge.to.count }
    ensures value { result ≡ opened (counts edge) }
    ensures growing { IsGrowing result }
{
    StrideVector {
        n: 1,
        a0: edge.from.count,
        b0: edge.to.count,
        sa: 0,
        sb: 0,
    }
}

/// The vector of two positions, of which the edge is the second, with the position after it awaited.
fn second(vector: &StrideVector, edge: Edge) -> Taken
    requires growing { IsGrowing vector.now }
    requires one { vector.now.n ≡ 1 }
    requires source { (last_of vector.now).0 < edge.from.count }
    requires target { (last_of vector.now).1 < edge.to.count }
    ensures vector { result.vector ≡ second vector.now (counts edge) }
    ensures awaited { result.awaited ≡ begun (second vector.now (counts edge)) (counts edge) }
    ensures growing { IsGrowing result.vector }
{
    let sa = edge.from.count - vector.a0;
    let sb = edge.to.count - vector.b0;
    Taken {
        vector: StrideVector {
            n: 2,
            a0: vector.a0,
            b0: vector.b0,
            sa,
            sb,
        },
        awaited: Awaited {
            target: edge.to.count as u64 + sb as u64,
            reached: edge.from.count,
            sa,
            sb,
        },
    }
}

/// The vector with the edge, where it takes it: the position that its strides give next stands for the edge only
/// where that is known.
fn joined(vector: &StrideVector, edge: Edge, awaited: &Awaited) -> Option<Taken>
    requires growing { IsGrowing vector.now }
    requires later { (last_of vector.now).1 < edge.to.count }
    ensures taken { result ≡ if takes (up_to awaited.now.reached) vector.now (counts edge)
        then Some (record {
          vector = taking vector.now (counts edge);
          awaited = awaited_with awaited.now vector.now (counts edge);
        })
        else None }
    ensures growing { IfSome result (λ t. IsGrowing t.vector) }
{
    let (last_a, last_b) = vector.last();
    let mut taken = Taken {
        vector: *vector,
        awaited: *awaited,
    };
    if edge.from.count <= last_a {
        return Some(taken);
    }
    if vector.n == 1 {
        return Some(second(vector, edge));
    }
    let next_a = last_a as u64 + vector.sa as u64;
    let next_b = last_b as u64 + vector.sb as u64;
    if edge.from.count as u64 > next_a || next_b > edge.to.count as u64 {
        return None;
    }
    if next_a > awaited.reached as u64 {
        return None;
    }
    taken.vector.n += 1;
    Some(taken)
}

/// The newest of a pair's vectors with the edge, which comes after its last position, and what is awaited of it
/// then. None where there is no vector or the newest doesn't take the edge, so that the edge opens one.
pub(crate) fn newest_with(vectors: &[StrideVector], edge: Edge, awaited: &Awaited) -> Option<Taken>
    requires growing { All IsGrowing vectors.now }
    requires later { end_target vectors.now < edge.to.count }
    ensures some { IfSome result (λ t. 0 < length vectors.now) }
    ensures growing { IfSome result (λ t. IsGrowing t.vector) }
    ensures taken { IfSome result (λ t. (takes (up_to awaited.now.reached) (newest vectors.now) (counts edge) ≡ true)
        × (t.vector ≡ taking (newest vectors.now) (counts edge))
        × (t.awaited ≡ awaited_with awaited.now (newest vectors.now) (counts edge))) }
    ensures refused { IfNone result ((length vectors.now ≡ 0)
        ⊎ (takes (up_to awaited.now.reached) (newest vectors.now) (counts edge) ≡ false)) }
{
    let vector = vectors.last()?;
    joined(vector, edge, awaited)
}
