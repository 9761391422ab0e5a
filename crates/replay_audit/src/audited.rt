//! The audit of a recording by one of its logs.
ghost use Rattle.std.specs.Prelude.{◌≡◌, ℕ, MatchResult, slice_index};
ghost use Rattle.clock_core.specs.Order.{Among};
ghost use Rattle.clock_core.specs.Reach.{IsClock};
ghost use Rattle.race_log.specs.Sources.{log_edges};
ghost use Rattle.race_log.specs.Validity.{Valid};
ghost use Rattle.replay_audit.specs.Audits.{AuditRefuses, Begins, FollowRefuses, HasFollowed, IsAuditOf, IsInstrOf};
ghost use Rattle.replay_audit.specs.Audits.{IsReplayOf, PassesOf};

use crate::audit_fault::AuditFault;
use crate::log_clocks::LogClocks;
use crate::trail::Trail;
use clock_core::Clock;
use core_runs::Ran;
use race_log::Recording;
use replay_core::{LowOrder, Replay};
use rtr_types::{Access, Instr, Items, Which};
use rv_core::Outcome;
use std::alloc::Global;
use std::marker::Model;

/// A recording that is determinate by one of its logs, with the outcome and the accesses of the low order,
/// and with the clocks of its instructions by the log.
pub struct Audited {
    recording: Recording,
    which: Which,
    pass: Pass,
}

impl Drop for Audited {
    fn drop(self) {
        let Audited {
            recording: _recording,
            which: _which,
            pass: _pass,
        } = self;
    }
}

impl Model for Audited {
    ghost use Rattle.replay_audit.specs.Audits.{Findings, HasPassed};

    ghost Value = { Findings };

    ghost view = { λ a. record {
      recording = a.recording;
      which = a.which;
      outcome = a.pass.outcome;
      accesses = a.pass.accesses;
    } };

    ghost invariant = { λ a. HasPassed a.which a.recording a.pass.outcome a.pass.accesses a.pass.clocks };
}

impl Audited {
    /// The recording.
    pub fn recording(&self) -> &Recording
        ensures recording { result.now ≡ self.now.recording }
        ensures valid { Valid self.now.recording }
    {
        &self.recording
    }

    /// The log.
    pub fn which(&self) -> Which
        ensures { result ≡ self.now.which }
    {
        self.which
    }

    /// The accesses of the low order.
    pub fn accesses(&self) -> &[Access]
        ensures accesses { result.now ≡ self.now.accesses }
        ensures passed { PassesOf self.now }
    {
        self.pass.accesses.as_slice()
    }

    /// The outcome of the low order.
    pub fn outcome(&self) -> &Outcome
        ensures outcome { result.now ≡ self.now.outcome }
        ensures passed { PassesOf self.now }
    {
        &self.pass.outcome
    }

    /// The clock of an instruction by the log: for each core the number of its instructions that are this
    /// one or lead to it.
    pub fn clock(&self, at: Instr) -> Clock
        requires { IsInstrOf self.now.recording at }
        ensures { IsClock (Among (log_edges self.now.which self.now.recording)) at (λ i. slice_index result i) }
    {
        self.pass.clocks.of(at).to_clock()
    }

    /// The same clock, looked for from a place on among those that are kept of its core. The place where it was found is
    /// left: the clocks of a core's instructions by rising count are each found near the one before.
    pub fn clock_near(&self, at: Instr, near: &mut usize) -> Clock
        requires { IsInstrOf self.now.recording at }
        ensures { IsClock (Among (log_edges self.now.which self.now.recording)) at (λ i. slice_index result i) }
    {
        let number = self.pass.clocks.number(at, *near);
        *near = number;
        self.pass.clocks.by_number(at, Some(number)).to_clock()
    }

    /// The recording, and the outcome of the low order. It takes no memory.
    pub fn into_parts(self) -> (Recording, Outcome)
        ensures recording { result.0 ≡ self.recording }
        ensures outcome { result.1 ≡ self.outcome }
        ensures valid { Valid self.recording }
        ensures passed { PassesOf self }
    {
        let Audited {
            recording,
            which: _which,
            pass,
        } = self;
        (recording, pass.into_outcome())
    }
}

/// Whether the log's low order is whole and plays, and the log orders each two of its accesses that
/// conflict. It takes one pass, in which the sources of each instruction are looked up once.
///
/// `Stuck` comes exactly where the low order ends before it is whole, `Short` exactly where its play falls
/// short, and `Undetermined` exactly where it is whole and plays, but two accesses that conflict are
/// unordered. `OutOfMemory` comes for want of memory alone.
pub fn audit(alloc: Global, recording: Recording, which: Which) -> Result<Audited, AuditFault>
    requires { Valid recording }
    ensures { MatchResult result (IsAuditOf which recording) (AuditRefuses which recording) }
{
    let pass = Pass::over(alloc, &recording, which, true)?;
    Ok(Audited {
        recording,
        which,
        pass,
    })
}

/// The recording and the outcome of the log's low order, where the recording is determinate by the log, and
/// else what `audit` refuses it for. It lists no accesses, unless there seem to be two that are unordered: then
/// it goes over the low order again, to name them.
pub fn replayed(
    alloc: Global,
    recording: Recording,
    which: Which,
) -> Result<(Recording, Outcome), AuditFault>
    requires { Valid recording }
    ensures { MatchResult result
        (λ parts. (parts.0 ≡ recording) × IsReplayOf which recording parts.1)
        (AuditRefuses which recording) }
{
    let outcome = match Pass::over(alloc, &recording, which, false) {
        Ok(pass) => pass.into_outcome(),
        Err(AuditFault::Undetermined { .. }) => {
            Pass::over(alloc, &recording, which, true)?.into_outcome()
        }
        Err(fault) => return Err(fault),
    };
    Ok((recording, outcome))
}

/// What one pass over the low order found.
struct Pass {
    outcome: Outcome,
    accesses: Items<Access>,
    clocks: LogClocks,
}

impl Drop for Pass {
    fn drop(self) {
        let Pass {
            outcome: _outcome,
            accesses: _accesses,
            clocks: _clocks,
        } = self;
    }
}

impl Pass {
    /// The pass over the low order of the recording's log, in which the accesses are listed or not.
    fn over(
        alloc: Global,
        recording: &Recording,
        which: Which,
        listed: bool,
    ) -> Result<Pass, AuditFault>
        requires { Valid recording.now }
        ensures { MatchResult result
            (λ pass. HasFollowed listed which recording.now pass.outcome pass.accesses pass.clocks)
            (FollowRefuses listed which recording.now) }
    {
        let mut tally = LowOrder::new(alloc, recording, which)?;
        let replay = Replay::new(alloc, recording, which)?;
        let totals = recording.totals.as_slice();
        let words = recording.params.words;
        let trail = Trail::new(alloc, tally.cores(), words, totals, listed)?;
        Pass::along(alloc, recording, which, &mut tally, replay, trail)
    }

    /// The pass, by a count of the cores, a replay and a trail at the start.
    fn along(
        alloc: Global,
        recording: &Recording,
        which: Which,
        tally: &mut LowOrder,
        replay: Replay,
        trail: Trail,
    ) -> Result<Pass, AuditFault>
        requires valid { Valid recording.now }
        requires begins { Begins which recording.now tally.old replay trail }
        ensures { MatchResult result
            (λ pass. HasFollowed trail.listed which recording.now pass.outcome pass.accesses pass.clocks)
            (FollowRefuses trail.listed which recording.now) }
    {
        let mut replay = replay;
        let mut trail = trail;
        follow(recording, which, tally, &mut replay, &mut trail)?;
        let (accesses, clocks) = trail.into_parts();
        Ok(Pass {
            outcome: replay.into_outcome(alloc)?,
            accesses,
            clocks,
        })
    }

    /// The outcome alone.
    fn into_outcome(self) -> Outcome
        ensures { result ≡ self.outcome }
    {
        let Pass {
            outcome,
            accesses: _accesses,
            clocks: _clocks,
        } = self;
        outcome
    }
}

/// Follows the low order from its start as far as it goes, and notes each instruction of it.
fn follow(
    recording: &Recording,
    which: Which,
    tally: &mut LowOrder,
    replay: &mut Replay,
    trail: &mut Trail,
) -> Result<(), AuditFault>
    requires valid { Valid recording.now }
    requires begins { Begins which recording.now tally.old replay.old trail.old }
    ensures { MatchResult result
        (λ _. HasFollowed trail.old.listed which recording.now replay.new.state trail.new.accesses trail.new.kept)
        (FollowRefuses trail.old.listed which recording.now) }
{
    let cores = tally.cores();
    while let Some(core) = tally.lowest() {
        // The core goes on alone to a count, and an edge may lead to its next instruction only.
        let until = tally.run(core);
        trail.note(&tally.next(core), cores)?;
        let ran = replay.go_on(core, until, trail);
        match ran {
            Ran::Whole => {}
            Ran::Done => {
                let count = replay.count(core);
                return Err(AuditFault::Short { core, count });
            }
            Ran::Refused => return Err(AuditFault::OutOfMemory),
        }
        tally.go_on(core, until);
    }
    if !replay.whole() {
        return Err(AuditFault::Stuck { cut: replay.cut() });
    }
    if let Some(pair) = trail.unordered() {
        return Err(AuditFault::Undetermined {
            first: pair.first,
            second: pair.second,
        });
    }
    Ok(())
}
