//! Reading lists pair by pair, and the edges of the reduced log so.
ghost use Rattle.std.specs.Prelude.{◌≡◌, ◌<◌, ◌≤◌, ℕ, List, Result, length, IfOk};
ghost use Rattle.rtr_types.specs.Pairs.{pair_count};
ghost use Rattle.log_codec.specs.Faults.{Gives};
ghost use Rattle.rtr_types.specs.Turns.{follow};
ghost use Rattle.log_codec.specs.Turns.{read_in_turn};
ghost use Rattle.race_log.specs.Validity.{bound_at};
ghost use Rattle.log_codec.specs.Reading.{by_pairs_at, counted_at, edge_at};

use crate::codec_fault::{CodecFault, REDUCED, Reading};
use crate::fields::number;
use rtr_types::{CORES_MAX, Items, pair_count, pair_of};
use std::alloc::Global;

/// An entry of a pair's list. It is read after the end of the entry before it, and reaches at most the pair's totals.
pub trait PairEntry: Drop {
    /// The next entry of a pair with these totals, after the last end, and the bytes after it.
    ghost entry_at: { (most last : ℕ × ℕ) → List ℕ → Result (Self × List ℕ) ℕ };

    /// Where an entry ends, after the one that ended at the last end.
    ghost end_of: { (last : ℕ × ℕ) → Self → ℕ × ℕ };

    /// The next entry, with its end.
    fn entry(most: (u32, u32), last: (u32, u32), bytes: &[u8]) -> Reading<(Self, (u32, u32))>
        ensures read { Gives (λ x. (x.0.0, x.1.now)) result (entry_at most last bytes.now) }
        ensures end { IfOk result (λ x. x.0.1 ≡ end_of last x.0.0) };
}

/// The totals of the source and of the target of the pair at a place.
fn bound(totals: &[u32], place: usize) -> (u32, u32)
    requires few { length totals.now ≤ CORES_MAX }
    requires within { place < pair_count (length totals.now) }
    ensures { result ≡ bound_at totals.now place }
{
    let (from, to) = pair_of(totals.len() as u8, place);
    (totals[from as usize], totals[to as usize])
}

/// The next edge after the last one. Both counts rise, to at most the totals.
#[tactic(auto, unfolding(crate::specs::Reading::edge_at))]
fn edge(most: (u32, u32), last: (u32, u32), bytes: &[u8]) -> Reading<(u32, u32)>
    ensures { Gives (λ x. (x.0, x.1.now)) result (edge_at most last bytes.now) }
{
    let (b, rest) = number(REDUCED, bytes)?;
    let (a, rest) = number(REDUCED, rest)?;
    let from = last.0 as u64 + a as u64;
    let to = last.1 as u64 + b as u64;
    if a == 0 || b == 0 || from > most.0 as u64 || to > most.1 as u64 {
        return Err(CodecFault::Bad { part: REDUCED });
    }
    Ok(((from as u32, to as u32), rest))
}

impl PairEntry for (u32, u32) {
    ghost entry_at = { edge_at };

    ghost end_of = { follow };

    fn entry(
        most: (u32, u32),
        last: (u32, u32),
        bytes: &[u8],
    ) -> Reading<((u32, u32), (u32, u32))> {
        let (next, rest) = edge(most, last, bytes)?;
        Ok(((next, next), rest))
    }
}

/// As many entries of a pair as the count says.
#[tactic(auto, using(crate::proofs::InTurn::reading))]
fn entries_from<T: PairEntry>(
    alloc: Global,
    most: (u32, u32),
    count: u32,
    bytes: &[u8],
) -> Reading<Items<T>>
    ensures { Gives (λ x. (x.0, x.1.now)) result (read_in_turn (T.entry_at most) T.end_of count (0, 0) bytes.now) }
{
    let mut found = Items::new(alloc);
    let mut last = (0, 0);
    let mut rest = bytes;
    for _ in 0..count {
        let ((next, end), after) = T::entry(most, last, rest)?;
        found.push(next)?;
        last = end;
        rest = after;
    }
    Ok((found, rest))
}

/// The list of a pair: how many entries, and these.
fn entries<T: PairEntry>(
    alloc: Global,
    part: u8,
    most: (u32, u32),
    bytes: &[u8],
) -> Reading<Items<T>>
    ensures { Gives (λ x. (x.0, x.1.now)) result (counted_at (T.entry_at most) T.end_of part (0, 0) bytes.now) }
{
    let (count, rest) = number(part, bytes)?;
    entries_from(alloc, most, count, rest)
}

/// The lists of all pairs, which are this part.
#[tactic(auto, using(crate::proofs::InTurn::reading))]
pub fn by_pairs<'a, T: PairEntry>(
    alloc: Global,
    part: u8,
    totals: &[u32],
    bytes: &'a [u8],
) -> Reading<'a, Items<Items<T>>>
    requires { length totals.now ≤ CORES_MAX }
    ensures { Gives (λ x. (x.0, x.1.now)) result
        (by_pairs_at (λ most. counted_at (T.entry_at most) T.end_of part (0, 0)) totals.now bytes.now) }
{
    let mut found = Items::new(alloc);
    let mut rest = bytes;
    for place in 0..pair_count(totals.len() as u8) {
        let most = bound(totals, place);
        let (next, after) = entries(alloc, part, most, rest)?;
        found.push(next)?;
        rest = after;
    }
    Ok((found, rest))
}
