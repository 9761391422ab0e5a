//! A replay whose cores go on if they can.
ghost use Rattle.std.specs.Prelude.{◌≡◌, IfOk, OnOk};
ghost use Rattle.what_if.specs.Others.{left_by, rounds};
ghost use Rattle.what_if.specs.Going.{HasRound, HasTried};

use replay_core::{Advanced, Replay};
use std::alloc::AllocError;

/// The core retires its next instruction, if it can go on. It answers whether it could.
fn take(replay: &mut Replay, core: u8) -> Result<bool, AllocError>
    ensures plan { replay.new.plan ≡ replay.old.plan }
    ensures tried { IfOk result (λ went. HasTried replay.old core went replay.new) }
{
    if core >= replay.cores() || !replay.ready(core) {
        return Ok(false);
    }
    replay.make_room()?;
    match replay.advance(core) {
        Advanced::Retired { .. } => Ok(true),
        Advanced::Short => Ok(false),
    }
}

/// Each of these cores goes on, one after the other, if it can.
pub(crate) fn walk(replay: &mut Replay, places: &[u8]) -> Result<(), AllocError>
    ensures plan { replay.new.plan ≡ replay.old.plan }
    ensures state { OnOk result (replay.new.state ≡ left_by replay.old.plan replay.old.state places.now) }
{
    for core in places {
        take(replay, *core)?;
    }
    Ok(())
}

/// Each core goes on once, if it can. It answers whether one could.
fn round(replay: &mut Replay) -> Result<bool, AllocError>
    ensures plan { replay.new.plan ≡ replay.old.plan }
    ensures round { IfOk result (λ went. HasRound replay.old went replay.new) }
{
    let mut went = false;
    for core in 0..replay.cores() {
        if take(replay, core)? {
            went = true;
        }
    }
    Ok(went)
}

/// The cores go on round by round, so many rounds, or until none can go on.
pub(crate) fn finish(replay: &mut Replay, most: u32) -> Result<(), AllocError>
    ensures plan { replay.new.plan ≡ replay.old.plan }
    ensures state { OnOk result (replay.new.state ≡ rounds replay.old.plan replay.old.state most) }
{
    for turn in 0..most {
        if !round(replay)? {
            return Ok(());
        }
    }
    Ok(())
}
