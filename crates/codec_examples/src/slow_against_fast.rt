//! Thinning beside the slow program, on every choice of vectors from a few for each pair of cores.
ghost use Rattle.std.specs.Prelude.{◌≡◌};
ghost use Rattle.rtr_types.specs.declared.pairs.Which.TheVariants.{Regulated};

use crate::slow_thinning::{Placed, Trial, left_out, placed_of};
use crate::thin_bytes::{FRONT, joined};
use log_codec::read;
use replay_audit::{Audited, audit};
use rtr_types::{CORES_MAX, Which};
use std::alloc::{AllocError, Global};
use std::test::Fail;
use vector_reduce::{Shown, Thinned, thin};

/// The vectors that lead from the second core to the first, from the second to the third, and from the third to the
/// first: how many, and these, as bytes.
static TO_FIRST: [&[u8]; 4] = [
    &[0],
    &[1, 1, 3, 4],
    &[1, 2, 3, 4, 1, 1],
    &[1, 2, 3, 4, 2, 1],
];

// From 1:3 to 2:3 and from 1:4 to 2:4 as two vectors: either of them, with one from the third core to the first,
// implies the edge from 1:3 to the first core.
static TO_THIRD: [&[u8]; 5] = [
    &[1, 1, 4, 4],
    &[2, 1, 3, 3, 1, 4, 4],
    &[1, 2, 3, 3, 1, 1],
    &[1, 2, 4, 4, 1, 2],
    &[2, 1, 4, 4, 1, 5, 6],
];

static FROM_THIRD: [&[u8]; 3] = [&[1, 1, 5, 4], &[1, 2, 5, 4, 1, 1], &[2, 1, 4, 3, 1, 5, 4]];

/// The bytes of the recording with these vectors.
fn with_vectors(
    alloc: Global,
    to_first: &[u8],
    to_third: &[u8],
    from_third: &[u8],
) -> Result<Vec<u8>, Fail> {
    let mut bytes = joined(alloc, &FRONT, &[0, 0])?;
    bytes.extend_from_slice(to_first)?;
    bytes.extend_from_slice(to_third)?;
    bytes.extend_from_slice(from_third)?;
    bytes.push(0)?;
    Ok(bytes)
}

/// Whether those are left of the vectors that the slow program leaves.
fn are_left(vectors: &[Placed], out: &[bool], left: &[Placed]) -> bool {
    let mut next: usize = 0;
    for (number, placed) in vectors.iter().enumerate() {
        if out.get(number) != Some(&true) {
            if left.get(next) != Some(placed) {
                return false;
            }
            next = next.saturating_add(1);
        }
    }
    next == left.len()
}

/// Whether what shows a vector needed is the first edge that the others don't imply, with the least cut.
fn is_least_shown(trial: &Trial, thinned: &Thinned) -> bool {
    match thinned.shown.as_slice().get(trial.tried) {
        Some(shown) => {
            trial.first_needed() == Some(shown.edge) && is_least_cut(trial, thinned, shown)
        }
        None => false,
    }
}

/// Whether the cut of what shows a vector needed has of each core what leads to the edge's target, and nothing else.
fn is_least_cut(trial: &Trial, thinned: &Thinned, shown: &Shown) -> bool {
    let totals = thinned.recording.totals.as_slice();
    for core in 0..CORES_MAX {
        if let Some(total) = totals.get(core as usize) {
            let before = trial.before_target(shown.edge, core, *total);
            if shown.cut.counts.get(core as usize) != Some(&before) {
                return false;
            }
        }
    }
    true
}

/// The same of each vector.
fn are_least_shown(left: &[Placed], thinned: &Thinned) -> bool {
    for tried in 0..left.len() {
        let trial = Trial {
            vectors: left,
            left_out: &[],
            tried,
        };
        if !is_least_shown(&trial, thinned) {
            return false;
        }
    }
    thinned.shown.len() == left.len()
}

/// Whether a recording was thinned as the slow program does it.
fn is_thinned(alloc: Global, audited: &Audited, thinned: &Thinned) -> Result<bool, AllocError> {
    let vectors = placed_of(alloc, audited.recording())?;
    let left = placed_of(alloc, &thinned.recording)?;
    let out = left_out(alloc, vectors.as_slice())?;
    let same = are_left(vectors.as_slice(), out.as_slice(), left.as_slice());
    Ok(same && are_least_shown(left.as_slice(), thinned))
}

/// The same of the thinning of an audited recording.
fn is_thinned_so(alloc: Global, audited: &Audited) -> Result<bool, Fail>
    requires { audited.now.which ≡ Regulated }
{
    let thinned = thin(alloc, audited)?;
    Ok(is_thinned(alloc, audited, &thinned)?)
}

/// Whether the recording is thinned as the slow program does it; none where the audit refuses it.
fn compared(alloc: Global, bytes: &[u8]) -> Result<Option<bool>, Fail> {
    match audit(alloc, read(alloc, bytes)?, Which::Regulated) {
        Ok(audited) => Ok(Some(is_thinned_so(alloc, &audited)?)),
        Err(_) => Ok(None),
    }
}

// Each choice of vectors that the audit accepts is thinned as by the definition.
#[test]
fn as_by_the_definition(rt: HostRuntime) -> Result<(), Fail> {
    let mut compared_so_far: u32 = 0;
    for to_first in &TO_FIRST {
        for to_third in &TO_THIRD {
            for from_third in &FROM_THIRD {
                let bytes = with_vectors(rt.alloc(), to_first, to_third, from_third)?;
                if let Some(same) = compared(rt.alloc(), &bytes)? {
                    assert!(rt; same, "{to_first:?} {to_third:?} {from_third:?}");
                    compared_so_far = compared_so_far.saturating_add(1);
                }
            }
        }
    }
    assert!(rt; compared_so_far >= 40, "{compared_so_far}");
    Ok(())
}
