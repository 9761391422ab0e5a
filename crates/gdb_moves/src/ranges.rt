//! Steps on and on, while the core stands in a range of addresses.
ghost use Rattle.std.specs.Prelude.{◌≡◌, ◌<◌, IfOk, slice_index};
ghost use Rattle.race_log.specs.Validity.{Valid};
ghost use Rattle.cut_replay.specs.ClosedCuts.{count_in};
ghost use Rattle.debug_place.specs.Places.{IsKept, cut_at};
ghost use Rattle.gdb_moves.specs.Moves.{StepsIn};
ghost use Rattle.gdb_moves.specs.Ranges.{goes_on, has_pc, is_step, stands_in, stays_at};
ghost use Rattle.gdb_moves.specs.Sights.{IsOf};
ghost use Rattle.gdb_moves.specs.Stopping.{stopping_of};

use crate::direction::Direction;
use crate::hearing::Hearing;
use crate::moves::Moved;
use crate::points::{Point, breaks_at};
use debug_place::Place;
use gdb_packets::{Stop, Why};
use std::alloc::Global;

/// A range of addresses.
#[derive(Clone, Copy)]
pub struct Range {
    /// The first address.
    pub from: u64,
    /// The one behind the last.
    pub past: u64,
}

impl Range {
    /// Whether the address lies in it.
    fn has(self, pc: u32) -> bool
        ensures { result ≡ has_pc self pc }
    {
        self.from <= pc as u64 && (pc as u64) < self.past
    }
}

impl Hearing<'_> {
    /// Steps of a core, one behind the other, until it leaves the range or something stops it.
    pub(crate) fn step_in(&self, alloc: Global, place: &mut Place, core: u8, range: Range) -> Moved
        requires run { IsOf self.now.audited.now place.old }
        requires core { core < place.old.recording.params.cores }
        ensures kept { IsKept place.old place.new }
        ensures steps { IfOk result (StepsIn range (stopping_of self.now) core place.old place.new) }
        ensures core { IfOk result (λ stop. stop.core < place.old.recording.params.cores) }
    {
        let total = self.audited.recording().totals.as_slice()[core as usize];
        for taken in count_of(place, core)..total {
            let before = count_of(place, core);
            let stop = self.step_core(alloc, place, Direction::Forward, core)?;
            if !goes_on(self.points.all(), place, range, core, total, before, stop) {
                return Ok(stop);
            }
        }
        self.step_core(alloc, place, Direction::Forward, core)
    }
}

/// How many instructions of a core are done.
fn count_of(place: &Place, core: u8) -> u32
    requires valid { Valid place.now.recording }
    requires core { core < place.now.recording.params.cores }
    ensures { result ≡ count_in (cut_at place.now) core }
{
    place.cut().counts[core as usize]
}

/// Whether the core goes on behind a step that told this stop, before which it had so many instructions of all its own.
fn goes_on(
    points: &[Point],
    place: &Place,
    range: Range,
    core: u8,
    total: u32,
    before: u32,
    stop: Stop,
) -> bool
    requires valid { Valid place.now.recording }
    requires core { core < place.now.recording.params.cores }
    requires total { total ≡ slice_index place.now.recording.totals core }
    ensures { result ≡ goes_on range points.now core before place.now stop }
{
    is_step(core, stop)
        && before < count_of(place, core)
        && stands_in(points, place, range, core, total)
}

/// Whether nothing but its step stopped the core.
fn is_step(core: u8, stop: Stop) -> bool
    ensures { result ≡ is_step core stop }
{
    match stop.why {
        Why::Nothing => stop.core == core,
        _ => false,
    }
}

/// Whether the core, whose total this is, has more to do and stands in the range, at no breakpoint.
fn stands_in(points: &[Point], place: &Place, range: Range, core: u8, total: u32) -> bool
    requires valid { Valid place.now.recording }
    requires core { core < place.now.recording.params.cores }
    requires total { total ≡ slice_index place.now.recording.totals core }
    ensures { result ≡ stands_in range points.now core place.now }
{
    count_of(place, core) < total && stays_at(points, range, place.core(core).pc())
}

/// Whether the address lies in the range, and no breakpoint is there.
fn stays_at(points: &[Point], range: Range, pc: u32) -> bool
    ensures { result ≡ stays_at range points.now pc }
{
    range.has(pc) && !breaks_at(points, pc)
}
