//! Moves of a place, and the stops that end them.
ghost use Rattle.std.specs.Prelude.{◌≡◌, ◌<◌, IfOk};
ghost use Rattle.rtr_types.specs.declared.TheConstants.{CORES_MAX};
ghost use Rattle.race_log.specs.Validity.{Valid};
ghost use Rattle.replay_audit.specs.Audits.{IsInstrOf};
ghost use Rattle.cut_replay.specs.ClosedCuts.{IsClosed};
ghost use Rattle.cut_moves.specs.Steps.{next_in};
ghost use Rattle.debug_place.specs.Places.{IsKept, cut_at};
ghost use Rattle.gdb_moves.specs.Directions.{LiesAhead};
ghost use Rattle.gdb_moves.specs.Moves.{Goes, HaltsIn, Obeys, Steps, Walks, fault_stop, plain_stop, teller};
ghost use Rattle.gdb_moves.specs.Moves.{IsWithin};
ghost use Rattle.gdb_moves.specs.Sights.{IsOf, Sees};
ghost use Rattle.gdb_moves.specs.Stopping.{stopping_of};

use crate::direction::Direction;
use crate::ends::{end_of, signal_of};
use crate::hearing::Hearing;
use crate::order::Order;
use crate::points::{Point, touched, why_of};
use debug_place::Place;
use gdb_packets::{Signal, Stop, Why};
use image_mem::Image;
use replay_audit::Audited;
use rtr_types::{CORES_MAX, CoreSet, Cut};
use std::alloc::{AllocError, Global};

/// What stopped a move. It is refused for want of memory alone.
pub type Moved = Result<Stop, AllocError>;

/// A stop by a trap.
pub(crate) fn plain_stop(core: u8, why: Why) -> Stop
    ensures { result ≡ plain_stop core why }
{
    Stop {
        signal: Signal::Trap,
        core,
        why,
    }
}

/// Obeys an order, and answers what stopped it. It is refused for want of memory alone.
pub fn obey(
    alloc: Global,
    audited: &Audited,
    image: &Image,
    place: &mut Place,
    points: &[Point],
    order: Order,
) -> Moved
    requires sees { Sees audited.now image.now place.old }
    requires within { IsWithin order place.old.recording.params.cores }
    ensures kept { IsKept place.old place.new }
    ensures obeys { IfOk result (Obeys points.now order place.old place.new) }
    ensures core { IfOk result (λ stop. stop.core < place.old.recording.params.cores) }
{
    // The audit passed, and a valid recording has no more cores than there may be.
    let _ = audited.outcome();
    let _ = audited.recording();
    match order {
        Order::Rest(core) => Ok(Stop {
            signal: Signal::Interrupt,
            core,
            why: Why::Nothing,
        }),
        Order::Step(direction, core, heard) => {
            let paused = direction.pausing(core, heard);
            let hearing = Hearing::new(audited, image, points, paused, direction.faulting(heard));
            hearing.step_core(alloc, place, direction, core)
        }
        Order::StepIn(core, heard, range) => {
            let paused = Direction::Forward.pausing(core, heard);
            let hearing = Hearing::new(audited, image, points, paused, heard);
            hearing.step_in(alloc, place, core, range)
        }
        Order::Go(direction, lead, heard) => {
            let hearing = Hearing::new(audited, image, points, heard, direction.faulting(heard));
            hearing.go(alloc, place, direction, lead)
        }
        Order::GoWith(direction, lead, cores, heard) => {
            let hearing = Hearing::new(audited, image, points, heard, direction.faulting(heard));
            match direction {
                Direction::Forward => hearing.go_with(alloc, place, cores, lead),
                Direction::Back => hearing.go_back_with(alloc, place, cores, lead),
            }
        }
    }
}

impl Hearing<'_> {
    /// A step of a core.
    pub(crate) fn step_core(
        &self,
        alloc: Global,
        place: &mut Place,
        direction: Direction,
        core: u8,
    ) -> Moved
        requires run { IsOf self.now.audited.now place.old }
        requires core { core < place.old.recording.params.cores }
        ensures kept { IsKept place.old place.new }
        ensures steps { IfOk result (Steps direction (stopping_of self.now) core place.old place.new) }
        ensures core { IfOk result (λ stop. stop.core < place.old.recording.params.cores) }
    {
        // A valid recording has no more cores than there may be.
        let _ = self.audited.recording();
        if !direction.has_more(place, core) {
            return Ok(plain_stop(core, direction.limit_why()));
        }
        let to = direction.step(self.audited, place, core)?;
        self.walk(
            alloc,
            place,
            direction,
            core,
            &to,
            plain_stop(core, Why::Nothing),
        )
    }

    /// All cores go on.
    fn go(&self, alloc: Global, place: &mut Place, direction: Direction, lead: u8) -> Moved
        requires run { IsOf self.now.audited.now place.old }
        requires lead { lead < place.old.recording.params.cores }
        ensures kept { IsKept place.old place.new }
        ensures goes { IfOk result (Goes direction (stopping_of self.now) lead place.old place.new) }
        ensures core { IfOk result (λ stop. stop.core < place.old.recording.params.cores) }
    {
        // The place is at a closed cut, which lies between that with none and the whole one.
        let _ = place.cut();
        let _ = self.audited.recording();
        let to = direction.limit(self.audited);
        self.walk(
            alloc,
            place,
            direction,
            lead,
            &to,
            plain_stop(lead, direction.limit_why()),
        )
    }

    /// Goes the way to a closed cut until something stops it.
    fn walk(
        &self,
        alloc: Global,
        place: &mut Place,
        direction: Direction,
        lead: u8,
        to: &Cut,
        done: Stop,
    ) -> Moved
        requires valid { Valid place.old.recording }
        requires closed { IsClosed place.old.which place.old.recording to.now }
        requires ahead { LiesAhead direction (cut_at place.old) to.now }
        requires lead { lead < place.old.recording.params.cores }
        requires told { done.core < place.old.recording.params.cores }
        ensures kept { IsKept place.old place.new }
        ensures walks { IfOk result (λ stop.
            Walks direction (stopping_of self.now) lead place.old to.now place.new stop done) }
        ensures core { IfOk result (λ stop. stop.core < place.old.recording.params.cores) }
    {
        match self.go_to(alloc, place, direction, to)? {
            None => Ok(done),
            Some(core) => self.halt(alloc, place, direction, lead, core),
        }
    }

    /// What stopped it at a core's instruction. Forwards that is before it, and a fault is told behind it; backwards it
    /// is behind an access, or else before the instruction.
    pub(crate) fn halt(
        &self,
        alloc: Global,
        place: &mut Place,
        direction: Direction,
        lead: u8,
        core: u8,
    ) -> Moved
        requires valid { Valid place.old.recording }
        requires lead { lead < place.old.recording.params.cores }
        requires next { IsInstrOf place.old.recording (next_in (cut_at place.old) core) }
        ensures kept { IsKept place.old place.new }
        ensures halts { IfOk result (HaltsIn direction (stopping_of self.now) lead core place.old place.new) }
        ensures core { IfOk result (λ stop. stop.core < place.old.recording.params.cores) }
    {
        let watched = touched(self.points.all(), place.next_use(core));
        match direction {
            Direction::Forward => {
                if self.breaks(core, place.core(core).pc()) {
                    return Ok(plain_stop(core, Why::Breakpoint));
                }
                if let Some(point) = watched {
                    return Ok(plain_stop(teller(self.heard, lead, core), why_of(point)));
                }
                place.step(alloc, core)?;
                Ok(fault_stop(self, core))
            }
            Direction::Back => {
                if let Some(point) = watched {
                    place.step(alloc, core)?;
                    return Ok(plain_stop(teller(self.paused, lead, core), why_of(point)));
                }
                Ok(plain_stop(core, Why::Breakpoint))
            }
        }
    }
}

/// Who is told of an access: the core, or the one that leads where the core isn't heard.
fn teller(heard: CoreSet, lead: u8, core: u8) -> u8
    requires { core < CORES_MAX }
    ensures { result ≡ teller heard lead core }
{
    if heard.has(core) { core } else { lead }
}

/// The stop behind a core's last instruction.
fn fault_stop(hearing: &Hearing, core: u8) -> Stop
    ensures { result ≡ fault_stop (stopping_of hearing.now) core }
{
    let end = end_of(hearing.audited.outcome(), hearing.image, core);
    Stop {
        signal: signal_of(end).unwrap_or(Signal::Trap),
        core,
        why: Why::Nothing,
    }
}
