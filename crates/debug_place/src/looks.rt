//! Looking for a stop of a way: for the first one, or for the last.
ghost use Rattle.std.specs.Prelude.{◌≡◌, ◌<◌, ◌≤◌, length};
ghost use Rattle.cut_replay.specs.ClosedCuts.{IsClosed, IsContained};
ghost use Rattle.cut_moves.specs.Rounds.{rounds_of};
ghost use Rattle.debug_place.specs.Hits.{AreCountsWithin, FirstIn, LastIn, stops_on};

use crate::counts::{first_count, last_count};
use crate::stops::Stops;
use cut_index::Index;
use cut_moves::Timeline;
use rtr_types::{CORES_MAX, Cut};

/// A place for each core, as the length of an array.
const PLACES: usize = CORES_MAX as usize;

/// How far one looks at a time, in places of the timeline, before one looks through all that is left.
const SPANS: [usize; 3] = [1 << 12, 1 << 16, 1 << 20];

/// The number of the first place before which it stops on the way from a cut to another, in the timeline. One looks
/// farther and farther, so a stop that is near is found soon.
pub(crate) fn first_stop<S: Stops>(
    index: &Index,
    timeline: &Timeline,
    stops: &S,
    low: &Cut,
    high: &Cut,
) -> Option<usize>
    requires timeline { timeline.now ≡ rounds_of index.now.which index.now.recording }
    requires low { IsClosed index.now.which index.now.recording low.now }
    requires high { IsClosed index.now.which index.now.recording high.now }
    requires within { IsContained low.now high.now }
    ensures { FirstIn (stops_on (S.hits stops.now) index.now.which index.now.recording low.now high.now timeline.now) 0
        (length timeline.now) result }
{
    // The audit passed, so the timeline is whole.
    let audited = index.audited();
    let _ = audited.outcome();
    let _ = audited.recording();
    let places = timeline.as_slice().len();
    let mut from = 0;
    if is_long(low, high) {
        let start = timeline.start(low, high);
        for span in SPANS {
            let past = start.saturating_add(span).min(places);
            if let Some(number) = first_within(index, timeline, stops, low, high, from, past) {
                return Some(number);
            }
            from = past;
        }
    }
    first_within(index, timeline, stops, low, high, from, places)
}

/// The number of the last place before which it stops on the way from a cut to another, in the timeline. One looks
/// farther and farther back.
pub(crate) fn last_stop<S: Stops>(
    index: &Index,
    timeline: &Timeline,
    stops: &S,
    low: &Cut,
    high: &Cut,
) -> Option<usize>
    requires timeline { timeline.now ≡ rounds_of index.now.which index.now.recording }
    requires low { IsClosed index.now.which index.now.recording low.now }
    requires high { IsClosed index.now.which index.now.recording high.now }
    requires within { IsContained low.now high.now }
    ensures { LastIn (stops_on (S.hits stops.now) index.now.which index.now.recording low.now high.now timeline.now) 0
        (length timeline.now) result }
{
    // The audit passed, so the timeline is whole.
    let audited = index.audited();
    let _ = audited.outcome();
    let _ = audited.recording();
    let mut past = timeline.as_slice().len();
    if is_long(low, high) {
        let end = timeline.end(low, high);
        for span in SPANS {
            let from = end.saturating_sub(span).min(past);
            if let Some(number) = last_within(index, timeline, stops, low, high, from, past) {
                return Some(number);
            }
            past = from;
        }
    }
    last_within(index, timeline, stops, low, high, 0, past)
}

/// Whether the way has more places than one looks at at first.
fn is_long(low: &Cut, high: &Cut) -> bool {
    let mut places: usize = 0;
    for core in 0..PLACES {
        let more = high.counts[core].saturating_sub(low.counts[core]);
        places = places.saturating_add(more as usize);
    }
    places > SPANS[0]
}

/// The number of the first place before which it stops on the way, of those from a number on, before another. Each core
/// is looked at on its own, and no farther than to the stop that was found.
fn first_within<S: Stops>(
    index: &Index,
    timeline: &Timeline,
    stops: &S,
    low: &Cut,
    high: &Cut,
    from: usize,
    past: usize,
) -> Option<usize>
    requires timeline { timeline.now ≡ rounds_of index.now.which index.now.recording }
    requires low { IsClosed index.now.which index.now.recording low.now }
    requires high { IsClosed index.now.which index.now.recording high.now }
    requires within { IsContained low.now high.now }
    requires past { past ≤ length timeline.now }
    ensures { FirstIn (stops_on (S.hits stops.now) index.now.which index.now.recording low.now high.now timeline.now)
        from past result }
{
    // A valid recording has no more cores than there may be, and the audit passed, so the timeline is whole.
    let audited = index.audited();
    let _ = audited.outcome();
    let recording = audited.recording();
    let mut found = None;
    let mut past = past;
    for core in 0..recording.params.cores {
        let (least, most) = counts_within(index, timeline, core, low, high, from, past);
        if let Some(count) = first_count(index, stops, core, least, most) {
            past = timeline.seat(core, count) as usize;
            found = Some(past);
        }
    }
    found
}

/// The number of the last place before which it stops on the way, of those from a number on, before another.
fn last_within<S: Stops>(
    index: &Index,
    timeline: &Timeline,
    stops: &S,
    low: &Cut,
    high: &Cut,
    from: usize,
    past: usize,
) -> Option<usize>
    requires timeline { timeline.now ≡ rounds_of index.now.which index.now.recording }
    requires low { IsClosed index.now.which index.now.recording low.now }
    requires high { IsClosed index.now.which index.now.recording high.now }
    requires within { IsContained low.now high.now }
    requires past { past ≤ length timeline.now }
    ensures { LastIn (stops_on (S.hits stops.now) index.now.which index.now.recording low.now high.now timeline.now)
        from past result }
{
    // A valid recording has no more cores than there may be, and the audit passed, so the timeline is whole.
    let audited = index.audited();
    let _ = audited.outcome();
    let recording = audited.recording();
    let mut found = None;
    let mut from = from;
    for core in 0..recording.params.cores {
        let (least, most) = counts_within(index, timeline, core, low, high, from, past);
        if let Some(count) = last_count(index, stops, core, least, most) {
            let number = timeline.seat(core, count) as usize;
            from = number + 1;
            found = Some(number);
        }
    }
    found
}

/// Those of a core's counts on the way that stand from a number on, before another.
fn counts_within(
    index: &Index,
    timeline: &Timeline,
    core: u8,
    low: &Cut,
    high: &Cut,
    from: usize,
    past: usize,
) -> (u32, u32)
    requires timeline { timeline.now ≡ rounds_of index.now.which index.now.recording }
    requires high { IsClosed index.now.which index.now.recording high.now }
    requires within { IsContained low.now high.now }
    requires core { core < index.now.recording.params.cores }
    ensures { AreCountsWithin index.now.which index.now.recording core low.now high.now timeline.now from past result.0
        result.1 }
{
    // A valid recording has no more cores than there may be, and the audit passed, so the timeline is whole.
    let audited = index.audited();
    let _ = audited.outcome();
    let _ = audited.recording();
    let least = low.counts[core as usize];
    let most = high.counts[core as usize];
    (
        timeline.count_before(core, least, most, from),
        timeline.count_before(core, least, most, past),
    )
}
