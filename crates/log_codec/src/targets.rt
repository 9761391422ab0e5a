//! Reading the edges of the reduced log target by target.
ghost use Rattle.std.specs.Prelude.{◌≡◌, ℕ, ◌+◌, ◌<◌, ◌≤◌, List, None, Some, [], length, nat_le, if◌then◌else◌};
ghost use Rattle.std.specs.Prelude.{replicate, IfOk, IfSome};
ghost use Rattle.rtr_types.specs.Pairs.{IsPair};
ghost use Rattle.log_codec.specs.Faults.{Gives};
ghost use Rattle.log_codec.specs.Incoming.{Keeps, TakesInto, incoming, incoming_stands, last_source, last_target};
ghost use Rattle.log_codec.specs.Incoming.{target_count};
ghost use Rattle.log_codec.specs.Reading.{incoming_at, into_at, put_into_lists, targets_at};
ghost use Rattle.log_codec.specs.declared.incoming.Incoming.{Incoming};

use crate::codec_fault::{CodecFault, PairEdges, REDUCED, Reading};
use crate::fields::number;
use crate::incoming::{Incoming, PLACES, target_of};
use rtr_types::{CORES_MAX, Items, pair_at, pair_count};
use std::alloc::{AllocError, Global};

/// The count that lies a rise above the last one, where it is at most the most.
fn raised(last: u32, rise: u32, most: u32) -> Option<u32>
    ensures { result ≡ (if nat_le (last + rise) most then Some (last + rise) else None) }
{
    if last as u64 + rise as u64 <= most as u64 {
        Some(last + rise)
    } else {
        None
    }
}

/// The edge whose numbers these are, where it stands after those before it: `last` is the newest of
/// them, and `counts` has each source core's last count.
fn standing(
    totals: &[u32],
    target: u8,
    last: Option<Incoming>,
    counts: &[u32; PLACES],
    source: u32,
    rises: (u32, u32),
) -> Option<Incoming>
    requires few { length totals.now ≤ CORES_MAX }
    requires target { target < length totals.now }
    ensures stands { (before : List Incoming) → Keeps last counts.now before →
        (let e = incoming source (last_source source before + rises.0, last_target before + rises.1) in
        result ≡ (if incoming_stands totals.now target before e then Some e else None)) }
    ensures pair { IfSome result (λ e. IsPair (length totals.now) e.source target) }
{
    if source >= totals.len() as u32 || source == target as u32 {
        return None;
    }
    let source = source as u8;
    let from = raised(counts[source as usize], rises.0, totals[source as usize])?;
    let to = raised(target_of(last), rises.1, totals[target as usize])?;
    let next = Incoming {
        source,
        counts: (from, to),
    };
    if rises.0 > 0 && next.comes_after(last) {
        Some(next)
    } else {
        None
    }
}

/// The next edge into a core.
#[tactic(auto, unfolding(crate::specs::Reading::incoming_at))]
fn edge<'a>(
    totals: &[u32],
    target: u8,
    last: Option<Incoming>,
    counts: &[u32; PLACES],
    bytes: &'a [u8],
) -> Reading<'a, Incoming>
    requires few { length totals.now ≤ CORES_MAX }
    requires target { target < length totals.now }
    ensures read { (before : List Incoming) → Keeps last counts.now before →
        Gives (λ x. (x.0, x.1.now)) result (incoming_at totals.now target before bytes.now) }
    ensures pair { IfOk result (λ x. IsPair (length totals.now) x.0.source target) }
{
    let (to, rest) = number(REDUCED, bytes)?;
    let (source, rest) = number(REDUCED, rest)?;
    let (from, rest) = number(REDUCED, rest)?;
    match standing(totals, target, last, counts, source, (from, to)) {
        Some(next) => Ok((next, rest)),
        None => Err(CodecFault::Bad { part: REDUCED }),
    }
}

/// The edges into a core, put into the lists of their pairs: how many, and these.
#[tactic(auto, unfolding(crate::specs::Reading::into_at))]
fn into<'a>(
    totals: &[u32],
    target: u8,
    lists: &mut Vec<Items<(u32, u32)>>,
    bytes: &'a [u8],
) -> Result<&'a [u8], CodecFault>
    requires { TakesInto totals.now target lists.old.items }
    ensures { Gives (λ rest. (lists.new.items, rest.now)) result
        (put_into_lists (length totals.now) lists.old.items target (into_at totals.now target bytes.now)) }
{
    let cores = totals.len() as u8;
    let mut last = None;
    let mut counts = [0; PLACES];
    let (count, mut rest) = number(REDUCED, bytes)?;
    for _ in 0..count {
        let (next, after) = edge(totals, target, last, &counts, rest)?;
        lists[pair_at(cores, next.source, target)].push(next.counts)?;
        counts[next.source as usize] = next.counts.0;
        last = Some(next);
        rest = after;
    }
    Ok(rest)
}

/// As many empty lists as there are pairs.
fn empty_lists(alloc: Global, count: usize) -> Result<Vec<Items<(u32, u32)>>, AllocError>
    ensures { IfOk result (λ lists. lists.items ≡ replicate count []) }
{
    let mut lists = Vec::with_capacity(alloc, count)?;
    for _ in 0..count {
        lists.push(Items::new(alloc))?;
    }
    Ok(lists)
}

/// How many cores edges can lead to: one core alone has none.
pub(crate) fn target_count(cores: u8) -> u8
    ensures { result ≡ target_count cores }
{
    if cores > 1 { cores } else { 0 }
}

/// The edges into each core, as those of each pair.
pub fn by_targets<'a>(alloc: Global, totals: &[u32], bytes: &'a [u8]) -> Reading<'a, PairEdges>
    requires { length totals.now ≤ CORES_MAX }
    ensures { Gives (λ x. (x.0, x.1.now)) result (targets_at totals.now bytes.now) }
{
    let cores = totals.len() as u8;
    let mut lists = empty_lists(alloc, pair_count(cores))?;
    let mut rest = bytes;
    for target in 0..target_count(cores) {
        rest = into(totals, target, &mut lists, rest)?;
    }
    Ok((Items::from_vec(lists), rest))
}
