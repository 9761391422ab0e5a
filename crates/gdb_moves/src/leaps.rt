//! Many turns at once: as far along the timeline as nothing stops the cores that move.
ghost use Rattle.std.specs.Prelude.{◌≡◌, ◌<◌, ◌≤◌, IfOk, length};
ghost use Rattle.cut_moves.specs.Rounds.{rounds_of};
ghost use Rattle.debug_place.specs.Places.{IsKept};
ghost use Rattle.gdb_moves.specs.Sights.{IsOf};
ghost use Rattle.gdb_moves.specs.declared.direction.Direction.TheVariants.{Back, Forward};
ghost use Rattle.gdb_moves.specs.Leaps.{HasLeapt, IsGone, IsGoneIn, IsLeft, LeapsOrStays};
ghost use Rattle.gdb_moves.specs.Stopping.{stopping_of};
ghost use Rattle.gdb_moves.specs.Turns.{timeline_at};

use crate::direction::Direction;
use crate::hearing::Hearing;
use cut_moves::{hull, intersection};
use cut_replay::cut_without;
use debug_place::Place;
use replay_audit::Audited;
use rtr_types::{CoreSet, Cut, Instr};
use std::alloc::{AllocError, Global};

/// How far one looks at first, in places of the timeline. Then it's sixteen times as far.
const SPAN: usize = 1 << 12;

impl Hearing<'_> {
    /// Takes as many turns of these cores at once as nothing stops, and answers to which place of the timeline. Where
    /// one stops that isn't taken, halving what is left finds it.
    pub(crate) fn leap(
        &self,
        alloc: Global,
        place: &mut Place,
        cores: CoreSet,
    ) -> Result<usize, AllocError>
        requires run { IsOf self.now.audited.now place.old }
        ensures kept { IsKept place.old place.new }
        ensures within { IfOk result (λ number. number ≤ length (timeline_at place.old)) }
        ensures leapt { IfOk result (λ number.
            HasLeapt Forward (stopping_of self.now) cores place.old number place.new) }
    {
        let places = place.timeline().len();
        let start = first_turn(self.audited, place, cores);
        let mut span = SPAN;
        let mut known = 0;
        let mut most = places;
        while known < most {
            let number = if most == places {
                next_asked(known, most, start.saturating_add(span))
            } else {
                most - (most - known) / 2
            };
            span = span.saturating_mul(16);
            if self.takes_turns(alloc, place, Direction::Forward, cores, number)? {
                known = number;
            } else {
                most = number - 1;
            }
        }
        Ok(known)
    }

    /// Takes as many turns back of these cores at once as nothing stops, and answers to which place of the timeline.
    pub(crate) fn leap_back(
        &self,
        alloc: Global,
        place: &mut Place,
        cores: CoreSet,
    ) -> Result<usize, AllocError>
        requires run { IsOf self.now.audited.now place.old }
        ensures kept { IsKept place.old place.new }
        ensures within { IfOk result (λ number. number ≤ length (timeline_at place.old)) }
        ensures leapt { IfOk result (λ number.
            HasLeapt Back (stopping_of self.now) cores place.old number place.new) }
    {
        // The audit passed, so the recording is determinate, and the place is at a closed cut.
        let _ = self.audited.recording();
        let _ = self.audited.outcome();
        let _ = place.cut();
        let end = last_turn(self.audited, place, cores);
        let mut span = SPAN;
        let mut known = place.timeline().len();
        let mut least = 0;
        while least < known {
            let number = if least == 0 {
                end.saturating_sub(span).min(known - 1)
            } else {
                least + (known - least) / 2
            };
            span = span.saturating_mul(16);
            if self.takes_turns(alloc, place, Direction::Back, cores, number)? {
                known = number;
            } else {
                least = number + 1;
            }
        }
        Ok(known)
    }

    /// Takes all turns of these cores at once that lead to a place of the timeline, if nothing stops any. Else none is
    /// taken.
    fn takes_turns(
        &self,
        alloc: Global,
        place: &mut Place,
        direction: Direction,
        cores: CoreSet,
        number: usize,
    ) -> Result<bool, AllocError>
        requires run { IsOf self.now.audited.now place.old }
        requires number { number ≤ length (timeline_at place.old) }
        ensures kept { IsKept place.old place.new }
        ensures leapt { IfOk result (λ leapt.
            LeapsOrStays leapt direction (stopping_of self.now) cores place.old number place.new) }
    {
        // The audit passed, so the recording is determinate.
        let _ = self.audited.recording();
        let _ = self.audited.outcome();
        let here = place.cut();
        let to = gone_in(self.audited, place, direction, cores, number)?;
        match self.go_to(alloc, place, direction, &to)? {
            None => {
                let _ = place.cut();
                Ok(true)
            }
            Some(_core) => {
                // It goes back to where it was.
                place.seek(alloc, &here)?;
                let _ = place.cut();
                Ok(false)
            }
        }
    }
}

/// A number above one, up to another, and otherwise this one.
fn next_asked(known: usize, most: usize, wish: usize) -> usize
    requires { known < most }
    ensures above { known < result }
    ensures most { result ≤ most }
{
    wish.max(known + 1).min(most)
}

/// Where the first turn of these cores stands in the timeline, or its end.
fn first_turn(audited: &Audited, place: &Place, cores: CoreSet) -> usize
    requires { IsOf audited.now place.now }
{
    // A valid recording has no more cores than there may be.
    let _ = audited.recording();
    let places = place.timeline().len();
    let cut = place.cut();
    let mut first = places;
    for core in 0..place.cores() {
        if cores.has(core) && place.has_next(core) {
            first = first.min(place.seat(core, cut.counts[core as usize]));
        }
    }
    first
}

/// Behind the place of the timeline where the last turn back of these cores stands, or its beginning.
fn last_turn(audited: &Audited, place: &Place, cores: CoreSet) -> usize
    requires { IsOf audited.now place.now }
{
    // A valid recording has no more cores than there may be.
    let _ = audited.recording();
    let cut = place.cut();
    let mut past = 0;
    for core in 0..place.cores() {
        if cores.has(core) && place.has_last(core) {
            let seat = place.seat(core, cut.counts[core as usize].saturating_sub(1));
            past = past.max(seat.saturating_add(1));
        }
    }
    past
}

/// The cut to which all turns of the cores lead that stand before a place of the timeline, or back behind it.
fn gone_in(
    audited: &Audited,
    place: &Place,
    direction: Direction,
    cores: CoreSet,
    number: usize,
) -> Result<Cut, AllocError>
    requires { IsOf audited.now place.now }
    ensures { IfOk result (IsGoneIn direction cores place.now number) }
{
    match direction {
        Direction::Forward => gone(audited, place, cores, number),
        Direction::Back => left(audited, place, cores, number),
    }
}

/// The least closed cut with all that the place has, and with what the cores do at the first places of the timeline.
fn gone(audited: &Audited, place: &Place, cores: CoreSet, number: usize) -> Result<Cut, AllocError>
    requires { IsOf audited.now place.now }
    ensures { IfOk result (IsGone cores place.now number) }
{
    // The recording is valid, and the place is at a closed cut.
    let _ = audited.recording();
    let _ = audited.outcome();
    let mut counts = place.cut();
    for core in 0..place.cores() {
        if cores.has(core) {
            let among = place.among(core, number);
            counts.counts[core as usize] = counts.counts[core as usize].max(among);
        }
    }
    hull(audited, &counts)
}

/// The greatest closed cut within the place's, without what the cores do behind the first places of the timeline.
fn left(audited: &Audited, place: &Place, cores: CoreSet, number: usize) -> Result<Cut, AllocError>
    requires { IsOf audited.now place.now }
    ensures { IfOk result (IsLeft cores place.now number) }
{
    // The recording is valid, and the place is at a closed cut.
    let _ = audited.recording();
    let mut cut = place.cut();
    for core in 0..place.cores() {
        if cores.has(core) {
            let count = place.among(core, number);
            if count < cut.counts[core as usize] {
                let count = count + 1;
                let without = cut_without(audited, Instr { core, count })?;
                cut = intersection(&cut, &without);
            }
        }
    }
    Ok(cut)
}
