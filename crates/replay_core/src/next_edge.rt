//! The first edge from a core to an instruction or a later one of its core.
ghost use Rattle.std.specs.Prelude.{◌≡◌, ◌≤◌, IsTrue, slice_get};
ghost use Rattle.std.specs.List.{flat_map};
ghost use Rattle.rtr_types.specs.Pairs.{IsPair};
ghost use Rattle.stride_vector.specs.Vectors.{IsVector, edges_of};
ghost use Rattle.race_log.specs.Sources.{AreApart, log_edges};
ghost use Rattle.rtr_types.specs.Turns.{StandInTurn, follow};
ghost use Rattle.rtr_types.specs.PairEdges.{EdgeRises};
ghost use Rattle.race_log.specs.Validity.{Valid};
ghost use Rattle.replay_core.specs.Coming.{IsBeginning, IsFirstPlace, IsNextEdge, IsNextInto, IsNextPosition};

use race_log::Recording;
use rtr_types::{Instr, Which};
use stride_vector::StrideVector;

/// One of a recording's logs.
#[derive(Clone, Copy)]
pub(crate) struct Log<'a> {
    pub(crate) recording: &'a Recording,
    pub(crate) which: Which,
}

/// The first edge of the log from core `of` to `at` or a later instruction of its core: the source's count
/// and the target's. It is looked up in the pair's list, whose counts rise. An edge of the reduced log is
/// looked for at a guess first, which becomes the place after it.
pub(crate) fn next_edge(log: Log, of: u8, at: Instr, guess: &mut usize) -> Option<(u32, u32)>
    requires valid { Valid log.recording.now }
    requires pair { IsPair log.recording.now.params.cores of at.core }
    ensures { IsNextInto (log_edges log.entry.which log.entry.recording.now) of at result }
{
    match log.which {
        Which::Reduced => first_edge(log.recording.reduced_between(of, at.core), at.count, guess),
        Which::Regulated => first_position(log.recording.regulated_between(of, at.core), at.count),
    }
}

/// The first of the pair's edges whose target's count isn't below `least`. The guess of its place becomes
/// the place after it.
fn first_edge(edges: &[(u32, u32)], least: u32, guess: &mut usize) -> Option<(u32, u32)>
    requires { StandInTurn EdgeRises follow (0, 0) edges.now }
    ensures { IsNextEdge edges.now least result }
{
    let here = *guess;
    if is_first(edges, least, here) {
        *guess = here.saturating_add(1);
        return edge_at(edges, here);
    }
    let below = edges.partition_point(|&(_, b)| b < least);
    *guess = below.saturating_add(1);
    edge_at(edges, below)
}

/// Whether the edge at a place is the first whose target's count isn't below `least`.
fn is_first(edges: &[(u32, u32)], least: u32, place: usize) -> bool
    ensures { IsTrue result → IsFirstPlace edges.now least place }
{
    place < edges.len() && edges[place].1 >= least && (place == 0 || edges[place - 1].1 < least)
}

/// The edge at a place, if there is one.
fn edge_at(edges: &[(u32, u32)], place: usize) -> Option<(u32, u32)>
    ensures { result ≡ slice_get edges.now place }
{
    edges.get(place).copied()
}

/// The first position of the pair's vectors whose target's count isn't below `least`. It is of the last
/// vector that doesn't begin above `least`, or else the beginning of the next one.
fn first_position(vectors: &[StrideVector], least: u32) -> Option<(u32, u32)>
    requires { AreApart vectors.now }
    ensures { IsNextEdge (flat_map edges_of vectors.now) least result }
{
    let begun = vectors.partition_point(|v| v.b0 <= least);
    if begun == 0 {
        return beginning(vectors, 0);
    }
    match position_from(&vectors[begun - 1], least) {
        Some(edge) => Some(edge),
        None => beginning(vectors, begun),
    }
}

/// The first position of the vector at a place, if there is one.
fn beginning(vectors: &[StrideVector], place: usize) -> Option<(u32, u32)>
    ensures { IsBeginning vectors.now place result }
{
    match vectors.get(place) {
        Some(v) => Some((v.a0, v.b0)),
        None => None,
    }
}

/// The first position of the vector whose target's count isn't below `least`, where the vector doesn't
/// begin above it.
fn position_from(vector: &StrideVector, least: u32) -> Option<(u32, u32)>
    requires vector { IsVector vector.now }
    requires begun { vector.now.b0 ≤ least }
    ensures { IsNextPosition vector.now least result }
{
    let (_, last) = vector.last();
    if last < least {
        return None;
    }
    let rise = least - vector.b0;
    if rise == 0 {
        return Some((vector.a0, vector.b0));
    }
    Some(vector.position(rise.div_ceil(vector.sb)))
}
