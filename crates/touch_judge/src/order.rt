//! The low order of a log where it is whole, run by run: a play is judged along it.
ghost use Rattle.std.specs.Prelude.{◌↔◌, IfOk, IsTrue};
ghost use Rattle.race_log.specs.Validity.{Valid};
ghost use Rattle.replay_audit.specs.Determinate.{IsDeterminate};
ghost use Rattle.replay_audit.specs.Touches.{ArePlayed};
ghost use Rattle.replay_audit.specs.Walks.{IsLowWalk};

use crate::clocks::Clocks;
use crate::marks::{Marks, PLACES};
use crate::notes::TouchNote;
use clock_core::Clock;
use race_log::Recording;
use replay_core::LowOrder;
use rtr_types::{Items, Which};
use std::alloc::{AllocError, Global};
use std::marker::Model;

/// A core that goes on alone to a count. An edge leads to the first of its instructions only, so that its clock is
/// that of the others too, but for the core's own place.
#[derive(Clone, Copy)]
pub(crate) struct Run {
    core: u8,
    until: u32,
    clock: Clock,
}

/// The low order of a recording's log, which is whole, run by run. It is walked once; then the accesses of a play
/// can be judged along it.
#[derive(Drop)]
pub struct RunOrder<'a> {
    recording: &'a Recording,
    which: Which,
    runs: Vec<Run>,
}

impl<'a> Model for RunOrder<'a> {
    ghost use Rattle.replay_audit.specs.Walks.{Walked};
    ghost use Rattle.touch_judge.specs.Runs.{IsOrder};

    ghost Value = { Walked };

    ghost view = { λ a. record { which = a.which; recording = a.recording.now } };

    ghost invariant = { λ a. IsOrder a.which a.recording.now a.runs.items };
}

impl<'a> RunOrder<'a> {
    /// The low order of the log, and none exactly where it isn't whole.
    pub fn of(
        alloc: Global,
        recording: &'a Recording,
        which: Which,
    ) -> Result<Option<RunOrder<'a>>, AllocError>
        requires { Valid recording.now }
        ensures { IfOk result (IsLowWalk which recording.now) }
    {
        let mut tally = LowOrder::new(alloc, recording, which)?;
        let mut clocks = Clocks::new(alloc, tally.cores())?;
        let mut runs = Vec::new(alloc);
        while let Some(core) = tally.lowest() {
            let until = tally.run(core);
            let next = tally.next(core);
            clocks.note(&next, tally.cores())?;
            let clock = clocks.last(core);
            runs.push(Run { core, until, clock })?;
            tally.go_on(core, until);
        }
        if !tally.whole() {
            return Ok(None);
        }
        Ok(Some(RunOrder {
            recording,
            which,
            runs,
        }))
    }

    /// Whether the recording is determinate by the log. `touched` has by core the accesses of the play of any
    /// whole replay order, each core's by rising count.
    pub fn judge(&self, alloc: Global, touched: &[Items<TouchNote>]) -> Result<bool, AllocError>
        requires { ArePlayed self.now.which self.now.recording touched.now }
        ensures { IfOk result (λ verdict. IsTrue verdict ↔ IsDeterminate self.now.which self.now.recording) }
    {
        let mut marks = Marks::new(alloc, self.recording.params.words)?;
        let mut places = [0; PLACES];
        for run in self.runs.as_slice() {
            if !marks.pass(touched, run.core, run.until, &run.clock, &mut places) {
                return Ok(false);
            }
        }
        Ok(true)
    }
}
