//! The state at a closed cut.
ghost use Rattle.std.specs.Prelude.{◌<◌, ◌↔◌, IfOk, IsTrue, MatchOption, length};
ghost use Rattle.cut_replay.specs.ClosedCuts.{IsClosed};
ghost use Rattle.cut_replay.specs.CutStates.{IsStateAt};
ghost use Rattle.cut_replay.specs.Dues.{IsDue, IsOnTheWay, IsWaitedFor, NoneIsDue};

use clock_core::Clock;
use replay_audit::Audited;
use replay_core::{Advanced, Replay};
use rtr_types::{Cut, Instr};
use rv_core::Outcome;
use std::alloc::{AllocError, Global};

/// The state at a cut that is closed under the audit's log: the cores, the memory and the loads that every
/// replay order comes to whose counts are the cut's. One such order is played, in which a core goes on as
/// long as it can; what an instruction waits for is told by its clock.
pub fn state_of(alloc: Global, audited: &Audited, cut: &Cut) -> Result<Outcome, AllocError>
    requires { IsClosed audited.now.which audited.now.recording cut.now }
    ensures { IfOk result (IsStateAt audited.now.which audited.now.recording cut.now) }
{
    // The audit passed, so each order plays.
    let _ = audited.outcome();
    let mut replay = Replay::new(alloc, audited.recording(), audited.which())?;
    let mut last = 0;
    while let Some(core) = due_core(audited, cut, &replay, last) {
        replay.make_room()?;
        let Advanced::Retired { .. } = replay.advance(core) else {
            unreachable!()
        };
        last = core;
    }
    replay.into_outcome(alloc)
}

/// A core that can go on within the cut: the one that went on last, if it can, or else the lowest.
fn due_core(audited: &Audited, cut: &Cut, replay: &Replay, last: u8) -> Option<u8>
    requires way { IsOnTheWay audited.now.which audited.now.recording cut.now replay.now }
    requires last { last < length replay.now.plan.totals }
    ensures { MatchOption result (NoneIsDue cut.now replay.now) (IsDue cut.now replay.now) }
{
    if is_due(audited, cut, replay, last) {
        return Some(last);
    }
    for core in 0..replay.cores() {
        if is_due(audited, cut, replay, core) {
            return Some(core);
        }
    }
    None
}

/// Whether the core's next instruction is in the cut, and the core is ready.
fn is_due(audited: &Audited, cut: &Cut, replay: &Replay, core: u8) -> bool
    requires way { IsOnTheWay audited.now.which audited.now.recording cut.now replay.now }
    requires core { core < length replay.now.plan.totals }
    ensures { IsTrue result ↔ IsDue cut.now replay.now core }
{
    let count = replay.count(core);
    if count >= cut.counts[core as usize] {
        return false;
    }
    let next = Instr {
        core,
        count: count + 1,
    };
    is_waited_for(replay, core, &audited.clock(next))
}

/// Whether each other core has come as far as the clock asks.
fn is_waited_for(replay: &Replay, core: u8, clock: &Clock) -> bool
    ensures { IsTrue result ↔ IsWaitedFor replay.now core clock.now }
{
    for of in 0..replay.cores() {
        if of != core && clock.get(of) > replay.count(of) {
            return false;
        }
    }
    true
}
