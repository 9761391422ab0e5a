//! Moves of only some cores, turn by turn.
ghost use Rattle.std.specs.Prelude.{◌≡◌, ◌<◌, IfOk, IfSome, MatchOption, nat_le};
ghost use Rattle.race_log.specs.Validity.{Valid};
ghost use Rattle.replay_audit.specs.Audits.{IsInstrOf};
ghost use Rattle.cut_replay.specs.ClosedCuts.{count_in};
ghost use Rattle.debug_place.specs.Places.{IsKept, cut_at};
ghost use Rattle.gdb_moves.specs.Sights.{IsOf};
ghost use Rattle.gdb_moves.specs.declared.direction.Direction.TheVariants.{Back, Forward};
ghost use Rattle.gdb_moves.specs.Directions.{ahead_in};
ghost use Rattle.gdb_moves.specs.Leaps.{IsCounted};
ghost use Rattle.gdb_moves.specs.Moves.{GoesWith, StepsFree, StepsInto};
ghost use Rattle.gdb_moves.specs.Stopping.{stopping_of};

use crate::direction::{Direction, PLACES};
use crate::hearing::Hearing;
use crate::moves::{Moved, plain_stop};
use debug_place::Place;
use gdb_packets::{Stop, Why};
use replay_audit::Audited;
use rtr_types::CoreSet;
use std::alloc::{AllocError, Global};

impl Hearing<'_> {
    /// Only these cores go on, turn by turn, and others as the log demands. Where they have nothing left, `lead` is
    /// told.
    pub(crate) fn go_with(
        &self,
        alloc: Global,
        place: &mut Place,
        cores: CoreSet,
        lead: u8,
    ) -> Moved
        requires run { IsOf self.now.audited.now place.old }
        requires lead { lead < place.old.recording.params.cores }
        ensures kept { IsKept place.old place.new }
        ensures goes { IfOk result (GoesWith Forward (stopping_of self.now) cores lead place.old place.new) }
        ensures core { IfOk result (λ stop. stop.core < place.old.recording.params.cores) }
    {
        // The recording is valid, so each count fits.
        let _ = self.audited.recording();
        let from = self.leap(alloc, place, cores)?;
        let mut at = counted(self.audited, place, from);
        for number in from..place.timeline().len() {
            let core = place.timeline()[number];
            let count = at[core as usize];
            if cores.has(core) && lacks(place, core, count) {
                if let Some(stop) = self.step_until(alloc, place, Direction::Forward, core)? {
                    return Ok(stop);
                }
            }
            at[core as usize] = count + 1;
        }
        Ok(plain_stop(lead, Why::End))
    }

    /// Only these cores go back, turn by turn, and others as the log demands. Where they have done nothing, `lead` is
    /// told.
    pub(crate) fn go_back_with(
        &self,
        alloc: Global,
        place: &mut Place,
        cores: CoreSet,
        lead: u8,
    ) -> Moved
        requires run { IsOf self.now.audited.now place.old }
        requires lead { lead < place.old.recording.params.cores }
        ensures kept { IsKept place.old place.new }
        ensures goes { IfOk result (GoesWith Back (stopping_of self.now) cores lead place.old place.new) }
        ensures core { IfOk result (λ stop. stop.core < place.old.recording.params.cores) }
    {
        // The audit passed, so the timeline is whole, and the place is at a cut within the totals.
        let _ = self.audited.outcome();
        let _ = self.audited.recording();
        let _ = place.cut();
        let past = self.leap_back(alloc, place, cores)?;
        let mut at = counted(self.audited, place, past);
        for number in (0..past).rev() {
            let core = place.timeline()[number];
            let count = at[core as usize] - 1;
            if cores.has(core) && !lacks(place, core, count) {
                if let Some(stop) = self.step_until(alloc, place, Direction::Back, core)? {
                    return Ok(stop);
                }
            }
            at[core as usize] = count;
        }
        Ok(plain_stop(lead, Why::Begin))
    }

    /// A step of a core, until something stops it; none where nothing does.
    fn step_until(
        &self,
        alloc: Global,
        place: &mut Place,
        direction: Direction,
        core: u8,
    ) -> Result<Option<Stop>, AllocError>
        requires run { IsOf self.now.audited.now place.old }
        requires ahead { IsInstrOf place.old.recording (ahead_in direction (cut_at place.old) core) }
        ensures kept { IsKept place.old place.new }
        ensures steps { IfOk result (λ stop. MatchOption stop
            (StepsFree direction (stopping_of self.now) core place.old place.new)
            (StepsInto direction (stopping_of self.now) core place.old place.new)) }
        ensures core { IfOk result (λ stop. IfSome stop (λ stop. stop.core < place.old.recording.params.cores)) }
    {
        // A valid recording has no more cores than there may be.
        let _ = self.audited.recording();
        let to = direction.step(self.audited, place, core)?;
        match self.go_to(alloc, place, direction, &to)? {
            None => Ok(None),
            Some(before) => Ok(Some(self.halt(alloc, place, direction, core, before)?)),
        }
    }
}

/// Whether the place has no more than so many instructions of the core.
fn lacks(place: &Place, core: u8, count: u32) -> bool
    requires valid { Valid place.now.recording }
    requires core { core < place.now.recording.params.cores }
    ensures { result ≡ nat_le (count_in (cut_at place.now) core) count }
{
    place.cut().counts[core as usize] <= count
}

/// Of each core how many of its instructions stand among the first places of the timeline, so many.
fn counted(audited: &Audited, place: &Place, number: usize) -> [u32; PLACES]
    requires { IsOf audited.now place.now }
    ensures { IsCounted place.now number result }
{
    // A valid recording has no more cores than there may be.
    let _ = audited.recording();
    let mut at = [0; PLACES];
    for core in 0..place.cores() {
        at[core as usize] = place.among(core, number);
    }
    at
}
