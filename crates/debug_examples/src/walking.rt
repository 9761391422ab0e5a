//! The timeline of three cores, and a replay that goes its ways.
ghost use Rattle.std.specs.Prelude.{◌≡◌, IfOk, IfSome};
ghost use Rattle.replay_core.specs.Plans.{plan_of};
ghost use Rattle.cut_replay.specs.ClosedCuts.{IsClosed};

use crate::recordings::{cut_of, three};
use cut_moves::{Timeline, hull, step, way};
use replay_audit::Audited;
use replay_core::{Advanced, Replay};
use row_texts::Counts;
use rtr_types::{Cut, Kind, Which};
use std::alloc::{AllocError, Global};
use std::test::Fail;

// The rounds of three cores: 0:4 waits for 2:3, which waits for 1:3, which waits for 2:2.
#[test]
fn rounds(rt: HostRuntime) -> Result<(), Fail> {
    let rounds = [0, 1, 2, 0, 0, 1, 2, 1, 1, 2, 0, 2, 0];
    for which in [Which::Reduced, Which::Regulated] {
        let audited = three(rt.alloc(), which)?;
        let list = Timeline::by_rounds(rt.alloc(), &audited)?;
        assert!(rt; list.as_slice() == rounds.as_slice());
    }
    Ok(())
}

/// Whether the cores, each of them ready in its turn, retire their next instructions in this order.
fn retire(replay: &mut Replay, order: &[u8]) -> Result<bool, AllocError>
    ensures { replay.new.plan ≡ replay.old.plan }
{
    for &core in order {
        replay.make_room()?;
        if core >= replay.cores() || !replay.has_room() || !replay.ready(core) {
            return Ok(false);
        }
        if replay.advance(core) == Advanced::Short {
            return Ok(false);
        }
    }
    Ok(true)
}

/// Lets the replay, which stands at the cut, go the way to a step of the core. There is none where it has come
/// elsewhere, or the core has no next instruction.
fn walk(
    alloc: Global,
    audited: &Audited,
    replay: &mut Replay,
    cut: &Cut,
    core: u8,
) -> Result<Option<Cut>, AllocError>
    requires { IsClosed audited.now.which audited.now.recording cut.now }
    ensures plan { replay.new.plan ≡ replay.old.plan }
    ensures closed { IfOk result (λ to. IfSome to (IsClosed audited.now.which audited.now.recording)) }
{
    let totals = audited.recording().totals.as_slice();
    if core as usize >= totals.len() || cut.counts[core as usize] >= totals[core as usize] {
        return Ok(None);
    }
    let to = step(audited, cut, core)?;
    let places = Timeline::by_rounds(alloc, audited)?;
    let places = way(alloc, audited, &places, cut, &to)?;
    if !retire(replay, places.as_slice())? || replay.cut() != to {
        return Ok(None);
    }
    Ok(Some(to))
}

/// Lets the replay go three steps of core 1 from the beginning, with what the log demands of the others.
fn walk_on(
    alloc: Global,
    audited: &Audited,
    replay: &mut Replay,
) -> Result<Option<Counts>, AllocError>
    ensures { replay.new.plan ≡ replay.old.plan }
{
    let Some(none) = cut_of(audited.recording(), Counts::new(0, 0, 0)) else {
        return Ok(None);
    };
    let start = hull(audited, &none)?;
    let Some(first) = walk(alloc, audited, replay, &start, 1)? else {
        return Ok(None);
    };
    let Some(second) = walk(alloc, audited, replay, &first, 1)? else {
        return Ok(None);
    };
    Ok(Some(Counts::of(&second)))
}

// A step of core 1 that needs nobody, and one that core 0 has to go before.
#[test]
fn ways(rt: HostRuntime) -> Result<(), Fail> {
    for which in [Which::Reduced, Which::Regulated] {
        let audited = three(rt.alloc(), which)?;
        let mut replay = Replay::new(rt.alloc(), audited.recording(), which)?;
        let to = walk_on(rt.alloc(), &audited, &mut replay)?;
        assert!(rt; to == Some(Counts::new(3, 2, 0)));
    }
    Ok(())
}

/// The address and the access of the core's next instruction; none where there is no such core.
fn comes(replay: &Replay, core: u8) -> Option<(u32, Option<(Kind, u32)>)> {
    if core >= replay.cores() {
        return None;
    }
    Some((replay.core(core).pc(), replay.next_use(core)))
}

/// What core 1 has loaded into register 7, and what word 16 is.
fn values(audited: &Audited, replay: &Replay) -> Option<(u32, u32)>
    requires { replay.now.plan ≡ plan_of audited.now.which audited.now.recording }
{
    if replay.cores() < 2 || audited.recording().params.words <= 16 {
        return None;
    }
    Some((replay.core(1).reg(7), replay.word(16)))
}

// What a replay shows that stands behind a load of core 1: core 0 is about to load, core 1 to store, and core 2
// has yet to begin.
#[test]
fn looks(rt: HostRuntime) -> Result<(), Fail> {
    let audited = three(rt.alloc(), Which::Reduced)?;
    let mut replay = Replay::new(rt.alloc(), audited.recording(), audited.which())?;
    let to = walk_on(rt.alloc(), &audited, &mut replay)?;
    assert!(rt; to == Some(Counts::new(3, 2, 0)));
    assert!(rt; comes(&replay, 0) == Some((0xc, Some((Kind::Load, 16)))));
    assert!(rt; comes(&replay, 1) == Some((0x18, Some((Kind::Store, 16)))));
    assert!(rt; comes(&replay, 2) == Some((0, None)));
    assert!(rt; values(&audited, &replay) == Some((7, 7)));
    Ok(())
}
