//! Checking what shows that each vector is needed.
ghost use Rattle.std.specs.Prelude.{◌≡◌, ◌≢◌, ◌-◌, ◌<◌, ◌≤◌, ◌^◌, ◌↔◌, length, IfOk, IfSome, IsTrue, IsOkUnless};
ghost use Rattle.std.specs.Prelude.{MatchResult};
ghost use Rattle.rtr_types.specs.declared.TheConstants.{CORES_MAX};
ghost use Rattle.rtr_types.specs.declared.pairs.Which.TheVariants.{Regulated};
ghost use Rattle.stride_vector.specs.Vectors.{IsVector};
ghost use Rattle.replay_audit.specs.Determinate.{IsDeterminate};
ghost use Rattle.vector_reduce.specs.Answers.{IsAccepted, ThinCheckRefuses};
ghost use Rattle.vector_reduce.specs.Arrivals.{AreBetween, IsBetween};
ghost use Rattle.vector_reduce.specs.Cuts.{Holds, IsClosed, IsLastWithin, counts_in};
ghost use Rattle.vector_reduce.specs.Showing.{EachShown, FirstNotShown, IsShown};
ghost use Rattle.vector_reduce.specs.Validity.{IsThin};
ghost use Rattle.vector_reduce.specs.Vectors.{edge_at, edges_in, edges_of_all, others_of, vector_at, vectors_of};

use crate::answers::ThinCheckFault;
use crate::pair_vector::{PairVector, vectors_of};
use crate::thinned::{Shown, Thinned};
use replay_audit::audit;
use rtr_types::{CORES_MAX, Cut, Instr, Which};
use std::alloc::{AllocError, Global};
use stride_vector::StrideVector;

/// Whether the instruction lies in the cut.
fn holds(cut: &Cut, at: Instr) -> bool
    requires { at.core < CORES_MAX }
    ensures { IsTrue result ↔ Holds (counts_in cut.now) at }
{
    at.count <= cut.counts[at.core as usize]
}

/// The last position whose target's count is at most so many. The first one's is.
fn last_within(vector: &StrideVector, most: u32) -> u32
    requires vector { IsVector vector.now }
    requires first { vector.now.b0 ≤ most }
    ensures { IsLastWithin vector.now most result }
{
    let last = vector.n - 1;
    if last == 0 {
        return 0;
    }
    last.min((most - vector.b0) / vector.sb)
}

/// Whether the cut is closed under the edges of a vector. The sources rise with the targets, so that the
/// last edge whose target lies in the cut decides.
fn is_closed_under(cut: &Cut, vector: &PairVector) -> bool
    requires { IsBetween CORES_MAX vector.now }
    ensures { IsTrue result ↔ IsClosed (edges_in vector.now) (counts_in cut.now) }
{
    let most = cut.counts[vector.to as usize];
    if most < vector.vector.b0 {
        return true;
    }
    let position = last_within(&vector.vector, most);
    holds(cut, vector.edge(position).from)
}

/// Whether the cut is closed under the vector with one number, if that isn't the other number.
fn is_closed_unless(cut: &Cut, vectors: &[PairVector], other: usize, number: usize) -> bool
    requires between { AreBetween CORES_MAX vectors.now }
    requires within { other < length vectors.now }
    ensures { IsTrue result ↔ (other ≢ number → IsClosed (edges_in (vector_at vectors.now other)) (counts_in cut.now)) }
{
    if other == number {
        return true;
    }
    is_closed_under(cut, &vectors[other])
}

/// Whether the cut is closed under the vectors but for the one with this number.
fn is_closed_under_others(cut: &Cut, vectors: &[PairVector], number: usize) -> bool
    requires { AreBetween CORES_MAX vectors.now }
    ensures { IsTrue result ↔ IsClosed (edges_of_all (others_of vectors.now number)) (counts_in cut.now) }
{
    for other in 0..vectors.len() {
        if !is_closed_unless(cut, vectors, other, number) {
            return false;
        }
    }
    true
}

/// Whether the cut has the edge's target and not its source.
fn parts(cut: &Cut, vector: &PairVector, position: u32) -> bool
    requires vector { IsBetween CORES_MAX vector.now }
    requires within { position < vector.now.vector.n }
    ensures { IsTrue result ↔ (Holds (counts_in cut.now) (edge_at vector.now position).to
        × (Holds (counts_in cut.now) (edge_at vector.now position).from → ⊥)) }
{
    let edge = vector.edge(position);
    let target = holds(cut, edge.to);
    let source = holds(cut, edge.from);
    target && !source
}

/// Whether this shows that the vector with this number is needed.
fn is_shown(vectors: &[PairVector], number: usize, shown: &Shown) -> bool
    requires between { AreBetween CORES_MAX vectors.now }
    requires within { number < length vectors.now }
    ensures { IsTrue result ↔ IsShown (others_of vectors.now number) (vector_at vectors.now number) shown.now }
{
    let vector = &vectors[number];
    if shown.edge >= vector.vector.n {
        return false;
    }
    if !parts(&shown.cut, vector, shown.edge) {
        return false;
    }
    is_closed_under_others(&shown.cut, vectors, number)
}

/// The number of the first vector, from 0, that isn't shown to be needed.
fn first_not_shown(vectors: &[PairVector], shown: &[Shown]) -> Option<u32>
    requires between { AreBetween CORES_MAX vectors.now }
    requires few { length vectors.now < 2 ^ 32 }
    requires all { length shown.now ≡ length vectors.now }
    ensures { FirstNotShown vectors.now shown.now result }
{
    for number in 0..vectors.len() {
        if !is_shown(vectors, number, &shown[number]) {
            return Some(number as u32);
        }
    }
    None
}

/// The same of a thinned recording.
fn first_of(alloc: Global, value: &Thinned) -> Result<Option<u32>, AllocError>
    requires { IsThin value.now }
    ensures first { IfOk result (FirstNotShown (vectors_of value.now.recording) value.now.shown) }
    ensures fits { IfOk result (λ first. IfSome first (λ number. number < 2 ^ 32 - 1)) }
{
    let vectors = vectors_of(alloc, &value.recording)?;
    Ok(first_not_shown(vectors.as_slice(), value.shown.as_slice()))
}

/// Whether a thinned recording shows what it says, whoever made it: where the answer is Ok, the recording is
/// determinate by its regulated log, and each vector of that log is needed, so that none of them can be left
/// out.
///
/// Tested are the audit by the regulated log, and then for each vector, by pair and within a pair in their
/// order, that its number is that of one of its edges, and that its cut is closed under the other vectors and
/// has the edge's target, but not its source. The answer names the first vector that fails. It takes a look-up
/// for each two vectors.
pub fn check_thin(alloc: Global, value: &Thinned) -> Result<(), ThinCheckFault>
    requires { IsThin value.now }
    ensures answer { MatchResult result (λ _. IsAccepted value.now) (ThinCheckRefuses value.now) }
    // What shows each vector needed is accepted, unless memory runs out: so is what `thin` gives.
    ensures complete { IsDeterminate Regulated value.now.recording → EachShown value.now →
        IsOkUnless result ThinCheckFault.OutOfMemory }
{
    let recording = value.recording.copied(alloc)?;
    audit(alloc, recording, Which::Regulated)?;
    match first_of(alloc, value)? {
        Some(before) => Err(ThinCheckFault::NotShown { vector: before + 1 }),
        None => Ok(()),
    }
}
