//! Writing the edges of the reduced log target by target.
ghost use Rattle.std.specs.Prelude.{◌≡◌, ℕ, ◌-◌, ◌<◌, ◌≤◌, ◌++◌, None, length, slice_get, slice_index, IfNone, IfSome};
ghost use Rattle.std.specs.Prelude.{OnOk};
ghost use Rattle.rtr_types.specs.Pairs.{pair_count};
ghost use Rattle.rtr_types.specs.declared.TheConstants.{CORES_MAX};
ghost use Rattle.log_codec.specs.Incoming.{IsFirst, IsLog, edges_out_of, incoming_edges, left, target_of};
ghost use Rattle.log_codec.specs.Fronts.{AreFronts, IsFront};
ghost use Rattle.log_codec.specs.Spelling.{into_text, number, targets_text};

use crate::fronts::{Fronts, PAST, key};
use crate::incoming::{Incoming, PLACES, target_of};
use crate::targets::target_count;
use rtr_types::{CORES_MAX, Items, pair_at};
use std::alloc::AllocError;
use varint_core::put_u32;

/// The edge at a place of the list of two cores; none from a core to itself, or past the list's end.
fn edge_at(
    reduced: &[Items<(u32, u32)>],
    cores: u8,
    target: u8,
    source: u8,
    place: usize,
) -> Option<(u32, u32)>
    requires pairs { length reduced.now ≡ pair_count cores }
    requires source { source < cores }
    requires target { target < cores }
    ensures { result ≡ slice_get (edges_out_of cores reduced.now target source) place }
{
    if source == target {
        return None;
    }
    reduced[pair_at(cores, source, target)]
        .as_slice()
        .get(place)
        .copied()
}

/// The key of the edge at a place of a list; `PAST` at the list's end.
fn front_at(reduced: &[Items<(u32, u32)>], cores: u8, target: u8, source: u8, place: usize) -> u64
    requires few { cores ≤ CORES_MAX }
    requires pairs { length reduced.now ≡ pair_count cores }
    requires source { source < cores }
    requires target { target < cores }
    ensures { IsFront source (slice_get (edges_out_of cores reduced.now target source) place) result }
{
    match edge_at(reduced, cores, target, source, place) {
        Some((_, count)) => key(count, source),
        None => PAST,
    }
}

/// The key of each source core's first edge.
fn first_fronts(reduced: &[Items<(u32, u32)>], cores: u8, target: u8) -> Fronts
    requires few { cores ≤ CORES_MAX }
    requires pairs { length reduced.now ≡ pair_count cores }
    requires target { target < cores }
    ensures { AreFronts cores (edges_out_of cores reduced.now target) result }
{
    let mut fronts = Fronts::new();
    for source in 0..cores {
        let front = front_at(reduced, cores, target, source, 0);
        fronts.put(source, front);
    }
    fronts
}

/// The first in order of the edges that are left, where `next` has the place of each source core's
/// next edge, and `fronts` the key of it.
fn first_left(
    reduced: &[Items<(u32, u32)>],
    cores: u8,
    target: u8,
    next: &[usize; PLACES],
    fronts: &Fronts,
) -> Option<Incoming>
    requires few { cores ≤ CORES_MAX }
    requires pairs { length reduced.now ≡ pair_count cores }
    requires target { target < cores }
    requires fronts { AreFronts cores (left cores reduced.now target next.now) fronts.now }
    ensures first { IfSome result (λ e. IsFirst cores (left cores reduced.now target next.now) e) }
    ensures none { IfNone result ((source : ℕ) → source < cores →
        slice_get (left cores reduced.now target next.now source) 0
        ≡ None) }
{
    let source = fronts.least()?;
    let counts = edge_at(reduced, cores, target, source, next[source as usize])?;
    Some(Incoming { source, counts })
}

/// How many edges lead into the core.
fn count_into(reduced: &[Items<(u32, u32)>], cores: u8, target: u8) -> u32
    requires log { IsLog cores reduced.now }
    requires target { target < cores }
    ensures { result ≡ length (incoming_edges cores reduced.now target) }
{
    let mut count = 0;
    for source in 0..cores {
        if source != target {
            count += reduced[pair_at(cores, source, target)].len() as u32;
        }
    }
    count
}

/// An edge into a core: how far the target's count rises, the source core, and how far its count rises.
fn put_incoming(
    out: &mut Vec<u8>,
    last: Option<Incoming>,
    counts: &[u32; PLACES],
    edge: Incoming,
) -> Result<(), AllocError>
    requires core { edge.source < CORES_MAX }
    requires target { target_of last ≤ edge.counts.1 }
    requires source { slice_index counts.now edge.source ≤ edge.counts.0 }
    ensures { OnOk result (out.new.items ≡ out.old.items
        ++ (number (edge.counts.1 - target_of last)
        ++ (number edge.source ++ number (edge.counts.0 - slice_index counts.now edge.source)))) }
{
    put_u32(out, edge.counts.1 - target_of(last))?;
    put_u32(out, edge.source as u32)?;
    put_u32(out, edge.counts.0 - counts[edge.source as usize])
}

/// The edges into a core: how many, and these in order.
fn put_into(
    out: &mut Vec<u8>,
    reduced: &[Items<(u32, u32)>],
    cores: u8,
    target: u8,
) -> Result<(), AllocError>
    requires log { IsLog cores reduced.now }
    requires target { target < cores }
    ensures { OnOk result (out.new.items ≡ out.old.items
        ++ into_text (incoming_edges cores reduced.now target)) }
{
    let count = count_into(reduced, cores, target);
    put_u32(out, count)?;
    let mut next = [0; PLACES];
    let mut fronts = first_fronts(reduced, cores, target);
    let mut counts = [0; PLACES];
    let mut last = None;
    for _ in 0..count {
        if let Some(edge) = first_left(reduced, cores, target, &next, &fronts) {
            put_incoming(out, last, &counts, edge)?;
            let source = edge.source as usize;
            next[source] += 1;
            let front = front_at(reduced, cores, target, edge.source, next[source]);
            fronts.put(edge.source, front);
            counts[source] = edge.counts.0;
            last = Some(edge);
        }
    }
    Ok(())
}

/// The edges into each core. The only refusal is want of memory.
pub fn put_targets(
    out: &mut Vec<u8>,
    reduced: &[Items<(u32, u32)>],
    cores: u8,
) -> Result<(), AllocError>
    requires { IsLog cores reduced.now }
    ensures { OnOk result (out.new.items ≡ out.old.items ++ targets_text cores reduced.now) }
{
    for target in 0..target_count(cores) {
        put_into(out, reduced, cores, target)?;
    }
    Ok(())
}
