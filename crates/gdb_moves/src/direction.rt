//! Moves along the recording, in either direction.
ghost use Rattle.std.specs.Prelude.{◌≡◌, ◌<◌, ◌↔◌, IfOk, IfSome, IsTrue};
ghost use Rattle.rtr_types.specs.declared.TheConstants.{CORES_MAX};
ghost use Rattle.race_log.specs.Validity.{Valid};
ghost use Rattle.replay_audit.specs.Audits.{IsInstrOf};
ghost use Rattle.cut_replay.specs.ClosedCuts.{IsClosed};
ghost use Rattle.cut_moves.specs.Steps.{next_in};
ghost use Rattle.debug_place.specs.Places.{IsKept, cut_at};
ghost use Rattle.gdb_moves.specs.Sights.{IsOf};
ghost use Rattle.gdb_moves.specs.Directions.{GoesTo, IsLimit, IsStepIn, LiesAhead, ahead_in, faulting, limit_why};
ghost use Rattle.gdb_moves.specs.Directions.{pausing};
ghost use Rattle.gdb_moves.specs.Stopping.{stopping_of, stops_at};

use crate::hearing::Hearing;
use cut_moves::{step, step_back, whole};
use debug_place::Place;
use gdb_packets::Why;
use replay_audit::Audited;
use rtr_types::{CORES_MAX, CoreSet, Cut};
use std::alloc::{AllocError, Global};

/// A place for each core, as the length of an array.
pub(crate) const PLACES: usize = CORES_MAX as usize;

/// A direction along a recording.
#[derive(Clone, Copy)]
pub enum Direction {
    /// To later instructions.
    Forward,
    /// To earlier ones.
    Back,
}

impl Direction {
    /// What is told where nothing lies ahead.
    pub(crate) fn limit_why(self) -> Why
        ensures { result ≡ limit_why self }
    {
        match self {
            Direction::Forward => Why::End,
            Direction::Back => Why::Begin,
        }
    }

    /// The cores whose faults are told, of those that are heard: backwards none.
    pub(crate) fn faulting(self, heard: CoreSet) -> CoreSet
        ensures { result ≡ faulting self heard }
    {
        match self {
            Direction::Forward => heard,
            Direction::Back => CoreSet::empty(),
        }
    }

    /// The cores that breakpoints stop where this one steps: forwards it leaves its own instruction.
    pub(crate) fn pausing(self, core: u8, heard: CoreSet) -> CoreSet
        requires { core < CORES_MAX }
        ensures { result ≡ pausing self core heard }
    {
        match self {
            Direction::Forward => heard.without(core),
            Direction::Back => heard,
        }
    }

    /// Whether an instruction of the core lies ahead.
    pub(crate) fn has_more(self, place: &Place, core: u8) -> bool
        requires { core < place.now.recording.params.cores }
        ensures { IsTrue result ↔ IsInstrOf place.now.recording (ahead_in self (cut_at place.now) core) }
    {
        match self {
            Direction::Forward => place.has_next(core),
            Direction::Back => place.has_last(core),
        }
    }

    /// A step of a core.
    pub(crate) fn step(self, audited: &Audited, place: &Place, core: u8) -> Result<Cut, AllocError>
        requires run { IsOf audited.now place.now }
        requires ahead { IsInstrOf place.now.recording (ahead_in self (cut_at place.now) core) }
        ensures step { IfOk result (IsStepIn self place.now.which place.now.recording (cut_at place.now) core) }
    {
        match self {
            Direction::Forward => step(audited, &place.cut(), core),
            Direction::Back => step_back(audited, &place.cut(), core),
        }
    }

    /// The cut at which nothing lies ahead.
    pub(crate) fn limit(self, audited: &Audited) -> Cut
        ensures limit { IsLimit self audited.now.recording result }
        ensures closed { IsClosed audited.now.which audited.now.recording result }
    {
        // The recording is valid, so each count lies within its total.
        let _ = audited.recording();
        match self {
            Direction::Forward => whole(audited),
            Direction::Back => Cut {
                cores: audited.recording().params.cores,
                counts: [0; PLACES],
            },
        }
    }
}

impl Hearing<'_> {
    /// Goes to a closed cut that lies ahead until something stops it, and answers before which core's instruction.
    pub(crate) fn go_to(
        &self,
        alloc: Global,
        place: &mut Place,
        direction: Direction,
        to: &Cut,
    ) -> Result<Option<u8>, AllocError>
        requires valid { Valid place.old.recording }
        requires closed { IsClosed place.old.which place.old.recording to.now }
        requires ahead { LiesAhead direction (cut_at place.old) to.now }
        ensures kept { IsKept place.old place.new }
        ensures goes { IfOk result (GoesTo direction (stops_at (stopping_of self.now)) place.old to.now place.new) }
        ensures next { IfOk result (λ stopped. IfSome stopped
            (λ core. IsInstrOf place.new.recording (next_in (cut_at place.new) core))) }
    {
        // The place is at a closed cut, so each core of the way is ready where its place comes.
        let _ = place.cut();
        match direction {
            Direction::Forward => place.go_to(alloc, self, to),
            Direction::Back => place.back(alloc, self, to),
        }
    }
}
