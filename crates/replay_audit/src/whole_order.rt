//! The low order of a log where it is whole: a play is judged along it.
ghost use Rattle.std.specs.Prelude.{◌↔◌, IfOk, IsTrue};
ghost use Rattle.race_log.specs.Validity.{Valid};
ghost use Rattle.replay_core.specs.Orders.{IsWhole};
ghost use Rattle.replay_core.specs.Plans.{plan_of};
ghost use Rattle.replay_audit.specs.Determinate.{IsDeterminate, low_order_of};
ghost use Rattle.replay_audit.specs.Touches.{ArePlayed};
ghost use Rattle.replay_audit.specs.Walks.{IsLowWalk};

use crate::judgement::access_at;
use crate::log_clocks::{LogClocks, PLACES};
use crate::touch::Touch;
use crate::trail::Trail;
use race_log::Recording;
use replay_core::LowOrder;
use rtr_types::{Instr, Items, Which};
use std::alloc::{AllocError, Global};
use std::marker::Model;

/// The low order of a recording's log, which is whole, and the clocks of its instructions by the log. It is
/// walked once; then the accesses of a play can be judged along it.
#[derive(Drop)]
pub struct WholeOrder<'a> {
    recording: &'a Recording,
    which: Which,
    order: Vec<u8>,
    clocks: LogClocks,
}

impl<'a> Model for WholeOrder<'a> {
    ghost use Rattle.replay_audit.specs.Walks.{Walked, IsWalk};

    ghost Value = { Walked };

    ghost view = { λ a. record { which = a.which; recording = a.recording.now } };

    ghost invariant = { λ a. IsWalk a.which a.recording.now a.order.items a.clocks };
}

impl<'a> WholeOrder<'a> {
    /// The low order of the log, and none exactly where it isn't whole.
    pub fn of(
        alloc: Global,
        recording: &'a Recording,
        which: Which,
    ) -> Result<Option<WholeOrder<'a>>, AllocError>
        requires { Valid recording.now }
        ensures { IfOk result (IsLowWalk which recording.now) }
    {
        let mut tally = LowOrder::new(alloc, recording, which)?;
        let mut clocks = LogClocks::new(alloc, tally.cores(), recording.totals.as_slice())?;
        let mut order = Vec::new(alloc);
        while let Some(core) = tally.lowest() {
            let next = tally.next(core);
            clocks.note(&next, tally.cores())?;
            order.push(core)?;
            tally.advance(core);
        }
        if !tally.whole() {
            return Ok(None);
        }
        Ok(Some(WholeOrder {
            recording,
            which,
            order,
            clocks,
        }))
    }

    /// Whether the recording is determinate by the log. `touched` has by core the accesses of the play of any
    /// whole replay order, each core's by rising count.
    pub fn judge(self, alloc: Global, touched: &[Items<Touch>]) -> Result<bool, AllocError>
        requires { ArePlayed self.which self.recording touched.now }
        ensures { IfOk result (λ verdict. IsTrue verdict ↔ IsDeterminate self.entry.which self.entry.recording) }
    {
        let WholeOrder {
            recording,
            which: _which,
            order,
            clocks,
        } = self;
        let words = recording.params.words;
        let mut trail = Trail::along(alloc, words, recording.totals.as_slice(), clocks)?;
        let mut counts = [0; PLACES];
        let mut places = [0; PLACES];
        let mut guesses = [0; PLACES];
        for &core in order.as_slice() {
            let count = counts[core as usize] + 1;
            counts[core as usize] = count;
            let at = Instr { core, count };
            if let Some(access) = access_at(touched, at, &mut places[core as usize]) {
                trail.watch(access, &mut guesses[core as usize])?;
            }
        }
        match trail.unordered() {
            Some(_) => Ok(false),
            None => Ok(true),
        }
    }
}

/// Whether the log's low order is whole.
pub fn ordered(alloc: Global, recording: &Recording, which: Which) -> Result<bool, AllocError>
    requires { Valid recording.now }
    ensures { IfOk result (λ whole.
        IsTrue whole ↔ IsWhole (plan_of which recording.now) (low_order_of which recording.now)) }
{
    match WholeOrder::of(alloc, recording, which)? {
        Some(_) => Ok(true),
        None => Ok(false),
    }
}
