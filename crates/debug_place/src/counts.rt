//! The counts of a core at which a test stops it.
ghost use Rattle.std.specs.Prelude.{◌≡◌, ◌<◌, ◌≤◌, false, length, slice_index, true};
ghost use Rattle.rtr_types.specs.declared.TheConstants.{CORES_MAX};
ghost use Rattle.debug_place.specs.Hits.{EndsIn, FirstIn, LastIn, hits_at, pc_hits, stops_behind, use_hits};

use crate::stops::Stops;
use cut_index::{Index, used_by};

/// The first of a core's counts from one on, before another, at which the test stops it.
pub(crate) fn first_count<S: Stops>(
    index: &Index,
    stops: &S,
    core: u8,
    from: u32,
    past: u32,
) -> Option<u32>
    requires core { core < index.now.recording.params.cores }
    requires past { past ≤ slice_index index.now.recording.totals core }
    ensures { FirstIn (stops_behind (S.hits stops.now) index.now.which index.now.recording core) from past result }
{
    // A valid recording has no more cores than there may be.
    let _ = index.audited().recording();
    if let Some(count) = first_hit(index, stops, core, from, past) {
        return Some(count);
    }
    if ends_in(index, stops, core, from, past) {
        return Some(past - 1);
    }
    None
}

/// The last of a core's counts from one on, before another, at which the test stops it.
pub(crate) fn last_count<S: Stops>(
    index: &Index,
    stops: &S,
    core: u8,
    from: u32,
    past: u32,
) -> Option<u32>
    requires core { core < index.now.recording.params.cores }
    requires past { past ≤ slice_index index.now.recording.totals core }
    ensures { LastIn (stops_behind (S.hits stops.now) index.now.which index.now.recording core) from past result }
{
    // A valid recording has no more cores than there may be.
    let _ = index.audited().recording();
    if ends_in(index, stops, core, from, past) {
        return Some(past - 1);
    }
    last_hit(index, stops, core, from, past)
}

/// Whether the core's last instruction comes from one count on, before another, and stops it.
fn ends_in<S: Stops>(index: &Index, stops: &S, core: u8, from: u32, past: u32) -> bool
    requires { core < index.now.recording.params.cores }
    ensures yes { result ≡ true →
        EndsIn (S.hits stops.now) core (slice_index index.now.recording.totals core) from past }
    ensures no { result ≡ false →
        EndsIn (S.hits stops.now) core (slice_index index.now.recording.totals core) from past → ⊥ }
{
    // A valid recording has no more cores than there may be, and a total for each.
    let recording = index.audited().recording();
    if from >= past || past != recording.totals.as_slice()[core as usize] {
        return false;
    }
    stops.stops_last(core)
}

/// The first of a core's counts from one on, before another, at which its instruction's address or access stops it.
fn first_hit<S: Stops>(index: &Index, stops: &S, core: u8, from: u32, past: u32) -> Option<u32>
    requires core { core < index.now.recording.params.cores }
    requires past { past ≤ slice_index index.now.recording.totals core }
    ensures { FirstIn (hits_at (S.hits stops.now) index.now.which index.now.recording core) from past result }
{
    // A valid recording has no more cores than there may be.
    let _ = index.audited().recording();
    let met = first_pc(stops, core, index.pcs(core), from, past);
    let most = match met {
        Some(count) => count,
        None => past,
    };
    match first_use(stops, core, index.uses(core), from, most) {
        Some(count) => Some(count),
        None => met,
    }
}

/// The last of a core's counts from one on, before another, at which its instruction's address or access stops it.
fn last_hit<S: Stops>(index: &Index, stops: &S, core: u8, from: u32, past: u32) -> Option<u32>
    requires core { core < index.now.recording.params.cores }
    requires past { past ≤ slice_index index.now.recording.totals core }
    ensures { LastIn (hits_at (S.hits stops.now) index.now.which index.now.recording core) from past result }
{
    // A valid recording has no more cores than there may be.
    let _ = index.audited().recording();
    let met = last_pc(stops, core, index.pcs(core), from, past);
    let least = match met {
        Some(count) => count + 1,
        None => from,
    };
    match last_use(stops, core, index.uses(core), least, past) {
        Some(count) => Some(count),
        None => met,
    }
}

/// The first of these addresses from one on, before another, that stops the core.
fn first_pc<S: Stops>(stops: &S, core: u8, pcs: &[u32], from: u32, past: u32) -> Option<u32>
    requires core { core < CORES_MAX }
    requires past { past ≤ length pcs.now }
    ensures { FirstIn (pc_hits (S.hits stops.now) core pcs.now) from past result }
{
    if stops.passes_pcs(core) {
        return None;
    }
    for count in from..past {
        if stops.hits_pc(core, pcs[count as usize]) {
            return Some(count);
        }
    }
    None
}

/// The last of these addresses from one on, before another, that stops the core.
fn last_pc<S: Stops>(stops: &S, core: u8, pcs: &[u32], from: u32, past: u32) -> Option<u32>
    requires core { core < CORES_MAX }
    requires past { past ≤ length pcs.now }
    ensures { LastIn (pc_hits (S.hits stops.now) core pcs.now) from past result }
{
    if stops.passes_pcs(core) {
        return None;
    }
    for count in (from..past).rev() {
        if stops.hits_pc(core, pcs[count as usize]) {
            return Some(count);
        }
    }
    None
}

/// The first of these accesses from one on, before another, that stops the core.
fn first_use<S: Stops>(stops: &S, core: u8, uses: &[u32], from: u32, past: u32) -> Option<u32>
    requires core { core < CORES_MAX }
    requires past { past ≤ length uses.now }
    ensures { FirstIn (use_hits (S.hits stops.now) core uses.now) from past result }
{
    if stops.passes_uses(core) {
        return None;
    }
    for count in from..past {
        if stops.hits_use(core, used_by(uses[count as usize])) {
            return Some(count);
        }
    }
    None
}

/// The last of these accesses from one on, before another, that stops the core.
fn last_use<S: Stops>(stops: &S, core: u8, uses: &[u32], from: u32, past: u32) -> Option<u32>
    requires core { core < CORES_MAX }
    requires past { past ≤ length uses.now }
    ensures { LastIn (use_hits (S.hits stops.now) core uses.now) from past result }
{
    if stops.passes_uses(core) {
        return None;
    }
    for count in (from..past).rev() {
        if stops.hits_use(core, used_by(uses[count as usize])) {
            return Some(count);
        }
    }
    None
}
