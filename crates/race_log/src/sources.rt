//! Which edge of a log leads from a core to an instruction.
ghost use Rattle.std.specs.Prelude.{◌≡◌, ◌<◌, ◌≤◌, ◌+◌, ◌↔◌, ℕ, Some, IfSome, IsTrue, length, slice_index_or};
ghost use Rattle.std.specs.List.{Contains, flat_map};
ghost use Rattle.stride_vector.specs.Vectors.{edges_of};
ghost use Rattle.rtr_types.specs.Turns.{StandInTurn, follow};
ghost use Rattle.rtr_types.specs.PairEdges.{EdgeRises};
ghost use Rattle.rtr_types.specs.declared.pairs.Which.TheVariants.{Reduced, Regulated};
ghost use Rattle.race_log.specs.Sources.{AreApart, IsFrom, edges_of_pair};

use crate::recording::Recording;
use rtr_types::{Instr, Which, pair_at};
use stride_vector::StrideVector;

/// How many places are looked at before an edge is searched for.
const TRIED: usize = 8;

impl Recording {
    ghost use Rattle.rtr_types.specs.Pairs.{IsPair, pair_place};
    ghost use Rattle.race_log.specs.Validity.{Valid};
    ghost use Rattle.race_log.specs.Sources.{HasEdge};

    /// The count of core `of` from which the chosen log has an edge to `at`, of which it has at most
    /// one; None where it has none, so also where the two cores are one, or not both the recording's.
    pub fn source(&self, which: Which, of: u8, at: Instr) -> Option<u32>
        requires { Valid self.now }
        ensures found { IfSome result (λ a. HasEdge which self.now (record { core = of; count = a }) at) }
        ensures only { (a : ℕ) → HasEdge which self.now (record { core = of; count = a }) at → result ≡ Some a }
    {
        if !self.is_pair(of, at.core) {
            return None;
        }
        match which {
            Which::Reduced => edge_source(self.reduced_between(of, at.core), at.count),
            Which::Regulated => vector_source(self.regulated_between(of, at.core), at.count),
        }
    }

    /// The same of the reduced log, looked for from a place in the two cores' list on. The place where it
    /// was found is left: the sooner found the less that is above the place that was given.
    pub fn reduced_source_near(&self, of: u8, at: Instr, near: &mut usize) -> Option<u32>
        requires { Valid self.now }
        ensures found { IfSome result (λ a. HasEdge Reduced self.now (record { core = of; count = a }) at) }
        ensures only { (a : ℕ) → HasEdge Reduced self.now (record { core = of; count = a }) at → result ≡ Some a }
    {
        if !self.is_pair(of, at.core) {
            return None;
        }
        edge_source_near(self.reduced_between(of, at.core), at.count, near)
    }

    /// Whether these are two different cores of the recording.
    fn is_pair(&self, from: u8, to: u8) -> bool
        ensures { IsTrue result ↔ IsPair self.now.params.cores from to }
    {
        from < self.params.cores && to < self.params.cores && from != to
    }

    /// The edges of the reduced log from one core to another: their counts rise.
    #[inline(always)]
    pub fn reduced_between(&self, from: u8, to: u8) -> &[(u32, u32)]
        requires valid { Valid self.now }
        requires pair { IsPair self.now.params.cores from to }
        ensures edges { result.now ≡ edges_of_pair Reduced self.now (pair_place self.now.params.cores from to) }
        ensures rise { StandInTurn EdgeRises follow (0, 0) result.now }
    {
        self.reduced.as_slice()[pair_at(self.params.cores, from, to)].as_slice()
    }

    /// The vectors of the regulated log from one core to another: each begins above the end of the one
    /// before it.
    #[inline(always)]
    pub fn regulated_between(&self, from: u8, to: u8) -> &[StrideVector]
        requires valid { Valid self.now }
        requires pair { IsPair self.now.params.cores from to }
        ensures edges { flat_map edges_of result.now
            ≡ edges_of_pair Regulated self.now (pair_place self.now.params.cores from to) }
        ensures apart { AreApart result.now }
    {
        self.regulated.as_slice()[pair_at(self.params.cores, from, to)].as_slice()
    }
}

/// The source of the pair's edge to the target's count, where there is one.
fn edge_source(edges: &[(u32, u32)], target: u32) -> Option<u32>
    requires { StandInTurn EdgeRises follow (0, 0) edges.now }
    ensures found { IfSome result (λ a. Contains edges.now (a, target)) }
    ensures only { (a : ℕ) → Contains edges.now (a, target) → result ≡ Some a }
{
    match edges.binary_search_by_key(&target, |&(_, b)| b) {
        Ok(k) => Some(edges[k].0),
        Err(_) => None,
    }
}

/// The same, looked for from a place on; the place where it was found is left.
fn edge_source_near(edges: &[(u32, u32)], target: u32, near: &mut usize) -> Option<u32>
    requires { StandInTurn EdgeRises follow (0, 0) edges.now }
    ensures found { IfSome result (λ a. Contains edges.now (a, target)) }
    ensures only { (a : ℕ) → Contains edges.now (a, target) → result ≡ Some a }
{
    let place = place_near(edges, target, *near);
    *near = place;
    if place < edges.len() && edges[place].1 == target {
        Some(edges[place].0)
    } else {
        None
    }
}

/// The place of the first edge to the target's count or a later one: it is looked for from a place on, and
/// searched for where it isn't that one or one of the next.
fn place_near(edges: &[(u32, u32)], target: u32, near: usize) -> usize
    requires { StandInTurn EdgeRises follow (0, 0) edges.now }
    ensures { IsFrom edges.now target result }
{
    for place in near..near.saturating_add(TRIED) {
        if is_from(edges, target, place) {
            return place;
        }
    }
    edges.partition_point(|edge| edge.1 < target)
}

/// Whether the edges before the place, and no others, lead to lower counts.
fn is_from(edges: &[(u32, u32)], target: u32, place: usize) -> bool
    requires { StandInTurn EdgeRises follow (0, 0) edges.now }
    ensures { IsTrue result → IsFrom edges.now target place }
{
    if place > edges.len() {
        return false;
    }
    is_past(edges, target, place) && is_up_to(edges, target, place)
}

/// Whether the last edge before the place, if there is one, leads to a lower count.
fn is_past(edges: &[(u32, u32)], target: u32, place: usize) -> bool
    requires { place ≤ length edges.now }
    ensures { IsTrue result → (k : ℕ) → k + 1 ≡ place → (slice_index_or edges.now k (0, 0)).1 < target }
{
    place == 0 || edges[place - 1].1 < target
}

/// Whether the edge at the place, if there is one, doesn't.
fn is_up_to(edges: &[(u32, u32)], target: u32, place: usize) -> bool
    requires { place ≤ length edges.now }
    ensures { IsTrue result → place < length edges.now → target ≤ (slice_index_or edges.now place (0, 0)).1 }
{
    place == edges.len() || target <= edges[place].1
}

/// The source of the position at the target's count, where there is one: only the last vector that
/// doesn't begin above the target can have it.
fn vector_source(vectors: &[StrideVector], target: u32) -> Option<u32>
    requires { AreApart vectors.now }
    ensures found { IfSome result (λ a. Contains (flat_map edges_of vectors.now) (a, target)) }
    ensures only { (a : ℕ) → Contains (flat_map edges_of vectors.now) (a, target) → result ≡ Some a }
{
    let begun = vectors.partition_point(|v| v.b0 <= target);
    if begun == 0 {
        return None;
    }
    vectors[begun - 1].source_of(target)
}
