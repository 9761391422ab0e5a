//! The way between two closed cuts along the timeline.
ghost use Rattle.std.specs.Prelude.{◌≡◌, IfOk};
ghost use Rattle.replay_core.specs.Orders.{Ordered};
ghost use Rattle.replay_core.specs.Plans.{plan_of};
ghost use Rattle.cut_replay.specs.ClosedCuts.{IsClosed, IsContained, count_in};
ghost use Rattle.cut_moves.specs.Rounds.{rounds_of};
ghost use Rattle.cut_moves.specs.Ways.{LeadsTo, way_of};

use crate::by_rounds::places_in;
use crate::seats::{Timeline, end_of, is_seen, start_of};
use replay_audit::Audited;
use rtr_types::{Cut, Items};
use std::alloc::{AllocError, Global};

/// The way from a cut to a closed cut that contains it: what the higher cut has beyond the lower one, in the
/// order of the timeline by rounds, one core a place. From the lower cut on the core of each place is ready, so a
/// replay that stands at the lower cut can play the way, and comes to the higher one. Only what stands in the timeline
/// from the way's first place to its last is looked at.
pub fn way(
    alloc: Global,
    audited: &Audited,
    timeline: &Timeline,
    low: &Cut,
    high: &Cut,
) -> Result<Items<u8>, AllocError>
    requires timeline { timeline.now ≡ rounds_of audited.now.which audited.now.recording }
    requires within { IsContained low.now high.now }
    requires closed { IsClosed audited.now.which audited.now.recording high.now }
    ensures way { IfOk result (λ list. list ≡ way_of (count_in low.now) (count_in high.now) timeline.now) }
    ensures ordered { IfOk result (λ list.
        Ordered (plan_of audited.now.which audited.now.recording) (count_in low.now) list) }
    ensures ends { IfOk result (λ list. LeadsTo (count_in low.now) (count_in high.now) list) }
{
    // The audit passed, so the timeline is whole.
    let _ = audited.outcome();
    let _ = audited.recording();
    let windows = timeline.windows(low, high);
    let places = timeline.as_slice();
    let end = end_of(&windows).min(places.len());
    let mut list = Vec::with_capacity(alloc, places_in(high).saturating_sub(places_in(low)))?;
    for number in start_of(&windows).min(end)..end {
        let core = places[number];
        if is_seen(&windows, core, number) {
            list.push(core)?;
        }
    }
    Ok(Items::from_vec(list))
}
