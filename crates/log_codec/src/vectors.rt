//! Reading the strided vectors of the regulated log.
ghost use Rattle.std.specs.Prelude.{◌≡◌, ◌+◌, ◌*◌, ◌≤◌, length, IsTrue};
ghost use Rattle.stride_vector.specs.Vectors.{IsVector};
ghost use Rattle.log_codec.specs.Faults.{Gives};
ghost use Rattle.race_log.specs.Validity.{end_of, strides_stand, vector_stands};
ghost use Rattle.log_codec.specs.Reading.{strides_at, vector_at, regulated_at};

use crate::codec_fault::{CodecFault, REGULATED, Reading};
use crate::fields::number;
use crate::pairs::{PairEntry, by_pairs};
use rtr_types::{CORES_MAX, Items};
use std::alloc::Global;
use stride_vector::StrideVector;

/// The strides, which are 0 where there is no second position.
#[tactic(auto, unfolding(crate::specs::Reading::strides_at))]
fn strides(n: u32, bytes: &[u8]) -> Result<(u32, u32, &[u8]), CodecFault>
    ensures { Gives (λ x. (x.0, x.1, x.2.now)) result (strides_at n bytes.now) }
{
    if n <= 1 {
        return Ok((0, 0, bytes));
    }
    let (sa, rest) = number(REGULATED, bytes)?;
    let (sb, rest) = number(REGULATED, rest)?;
    Ok((sa, sb, rest))
}

/// The count that lies a number of strides after the first.
fn reached(first: u32, strides: u32, stride: u32) -> u64
    ensures { result ≡ first + strides * stride }
{
    first as u64 + strides as u64 * stride as u64
}

/// Whether the strides are 0 just where there is no second position.
fn has_strides(v: &StrideVector) -> bool
    ensures { result ≡ strides_stand v.now }
{
    if v.n > 1 {
        v.sa >= 1 && v.sb >= 1
    } else {
        v.sa == 0 && v.sb == 0
    }
}

/// Whether a vector stands after the last position, with all its counts at most the totals.
fn stands(most: (u32, u32), last: (u32, u32), v: &StrideVector) -> bool
    ensures test { result ≡ vector_stands most last v.now }
    ensures vector { IsTrue result → IsVector v.now }
{
    let more = v.n.saturating_sub(1);
    v.n >= 1
        && has_strides(v)
        && last.0 < v.a0
        && last.1 < v.b0
        && reached(v.a0, more, v.sa) <= most.0 as u64
        && reached(v.b0, more, v.sb) <= most.1 as u64
}

impl PairEntry for StrideVector {
    ghost entry_at = { vector_at };

    ghost end_of = { end_of };

    /// The next vector after the last position.
    #[tactic(auto, unfolding(crate::specs::Reading::vector_at))]
    fn entry(
        most: (u32, u32),
        last: (u32, u32),
        bytes: &[u8],
    ) -> Reading<(StrideVector, (u32, u32))> {
        let (n, rest) = number(REGULATED, bytes)?;
        let (a0, rest) = number(REGULATED, rest)?;
        let (b0, rest) = number(REGULATED, rest)?;
        let (sa, sb, rest) = strides(n, rest)?;
        let v = StrideVector { n, a0, b0, sa, sb };
        if !stands(most, last, &v) {
            return Err(CodecFault::Bad { part: REGULATED });
        }
        let end = v.last();
        Ok(((v, end), rest))
    }
}

/// The vectors of all pairs.
#[tactic(auto, unfolding(crate::specs::Reading::vectors_at))]
pub fn regulated<'a>(
    alloc: Global,
    totals: &[u32],
    bytes: &'a [u8],
) -> Reading<'a, Items<Items<StrideVector>>>
    requires { length totals.now ≤ CORES_MAX }
    ensures { Gives (λ x. (x.0, x.1.now)) result (regulated_at totals.now bytes.now) }
{
    by_pairs(alloc, REGULATED, totals, bytes)
}
