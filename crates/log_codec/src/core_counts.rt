//! A count of each core, as further parts of a file have them.
ghost use Rattle.std.specs.Prelude.{◌≡◌, ◌+◌, ◌++◌, ◌<◌, drop, length, take, OnOk};
ghost use Rattle.log_codec.specs.CoreCounts.{count_at, counts_at, counts_text};
ghost use Rattle.log_codec.specs.Faults.{Gives};

use crate::codec_fault::{CodecFault, Reading};
use crate::fields::number;
use rtr_types::Items;
use std::alloc::{AllocError, Global};
use varint_core::put_u32;

/// A count of a core, at most its total, and the bytes after it.
#[tactic(auto, unfolding(crate::specs::CoreCounts::count_at))]
fn count<'a>(part: u8, totals: &[u32], core: usize, bytes: &'a [u8]) -> Reading<'a, u32>
    requires { core < length totals.now }
    ensures { Gives (λ x. (x.0, x.1.now)) result (count_at part totals.now core bytes.now) }
{
    let (n, rest) = number(part, bytes)?;
    if n > totals[core] {
        return Err(CodecFault::Bad { part });
    }
    Ok((n, rest))
}

/// A count of each core, at most its total, and the bytes after them. A fault names the part.
pub fn counts<'a>(
    alloc: Global,
    part: u8,
    totals: &[u32],
    bytes: &'a [u8],
) -> Reading<'a, Items<u32>>
    ensures { Gives (λ x. (x.0, x.1.now)) result (counts_at part totals.now bytes.now) }
{
    let mut found = Items::from_vec(Vec::with_capacity(alloc, totals.len())?);
    let rest = counts_into(&mut found, part, totals, bytes)?;
    Ok((found, rest))
}

/// The same, put behind what the list has already. After a fault it may have some of them.
pub fn counts_into<'a>(
    found: &mut Items<u32>,
    part: u8,
    totals: &[u32],
    bytes: &'a [u8],
) -> Result<&'a [u8], CodecFault>
    ensures read { Gives (λ rest. (drop (length found.old) found.new, rest.now)) result
        (counts_at part totals.now bytes.now) }
    ensures kept { OnOk result (take (length found.old) found.new ≡ found.old) }
    ensures all { OnOk result (length found.new ≡ length found.old + length totals.now) }
{
    let mut rest = bytes;
    for core in 0..totals.len() {
        let (next, after) = count(part, totals, core, rest)?;
        found.push(next)?;
        rest = after;
    }
    Ok(rest)
}

/// Appends a count of each core. The only refusal is want of memory.
pub fn put_counts(out: &mut Vec<u8>, counts: &[u32]) -> Result<(), AllocError>
    ensures { OnOk result (out.new.items ≡ out.old.items ++ counts_text counts.now) }
{
    for count in counts {
        put_u32(out, *count)?;
    }
    Ok(())
}
