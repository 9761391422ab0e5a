//! Copies of recordings without some of their vectors.
ghost use Rattle.std.specs.Prelude.{◌≡◌, ◌≤◌, length, sum_by, IfOk};
ghost use Rattle.vector_reduce.specs.Kept.{IsKeptOf, kept, kept_lists};

use race_log::Recording;
use rtr_types::Items;
use std::alloc::{AllocError, Global};
use stride_vector::StrideVector;

/// The recording with those of its vectors that stay, by the answer for each.
pub fn kept_of(
    alloc: Global,
    recording: &Recording,
    stays: &[bool],
) -> Result<Recording, AllocError>
    requires { length stays.now ≡ sum_by (λ vectors. length vectors) recording.now.regulated }
    ensures { IfOk result (IsKeptOf recording.now stays.now) }
{
    let regulated = kept_lists(alloc, recording.regulated.as_slice(), stays)?;
    recording.copied_with(alloc, regulated)
}

/// The vectors of a pair that stay, by the first answers.
#[tactic(auto, using(crate::proofs::Next::kept_yes, crate::proofs::Next::kept_no, crate::proofs::Next::kept_enough))]
fn kept(
    alloc: Global,
    vectors: &[StrideVector],
    stays: &[bool],
) -> Result<Items<StrideVector>, AllocError>
    requires { length vectors.now ≤ length stays.now }
    ensures { IfOk result (λ list. list ≡ kept vectors.now stays.now) }
{
    let mut list = Items::new(alloc);
    for place in 0..vectors.len() {
        if stays[place] {
            list.push(vectors[place])?;
        }
    }
    Ok(list)
}

/// The vectors of all pairs that stay. The answers of each pair follow those of the pair before.
fn kept_lists(
    alloc: Global,
    lists: &[Items<StrideVector>],
    stays: &[bool],
) -> Result<Items<Items<StrideVector>>, AllocError>
    requires { length stays.now ≡ sum_by (λ vectors. length vectors) lists.now }
    ensures { IfOk result (λ left. left ≡ kept_lists lists.now stays.now) }
{
    let mut left = Items::new(alloc);
    let mut rest = stays;
    for vectors in lists {
        let list = vectors.as_slice();
        let (own, after) = rest.split_at(list.len());
        left.push(kept(alloc, list, own)?)?;
        rest = after;
    }
    Ok(left)
}
