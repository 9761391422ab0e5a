//! Steps forward and back, and cuts that are gone to.
use crate::handed_over::{counts, handed_over};
use cut_replay::cut_with;
use debug_place::Place;
use replay_audit::Audited;
use rtr_types::Instr;
use std::alloc::{AllocError, Global};
use std::test::Fail;

/// The counts after a step of the core, if it can take one.
fn stepped(alloc: Global, place: &mut Place, core: u8) -> Result<(u32, u32), AllocError> {
    if core < place.cores() && place.has_next(core) {
        place.step(alloc, core)?;
    }
    Ok(counts(place))
}

/// The counts after a step back of the core, if it can take one.
fn stepped_back(alloc: Global, place: &mut Place, core: u8) -> Result<(u32, u32), AllocError> {
    if core < place.cores() && place.has_last(core) {
        place.step_back(alloc, core)?;
    }
    Ok(counts(place))
}

// Core 1 goes alone as far as its load, which takes core 0 with it.
#[test]
fn a_step_takes_with_it_what_the_log_demands(rt: HostRuntime) -> Result<(), Fail> {
    let audited = handed_over(rt.alloc())?;
    let mut place = Place::begin(rt.alloc(), &audited)?;
    assert_eq!(rt; counts(&place), (0, 0));
    assert_eq!(rt; stepped(rt.alloc(), &mut place, 1)?, (0, 1));
    assert_eq!(rt; stepped(rt.alloc(), &mut place, 1)?, (3, 2));
    assert_eq!(rt; stepped(rt.alloc(), &mut place, 0)?, (4, 3));
    Ok(())
}

// Core 0 gives up its store, and core 1 what came behind it.
#[test]
fn a_step_back_gives_up_what_needs_the_instruction(rt: HostRuntime) -> Result<(), Fail> {
    let audited = handed_over(rt.alloc())?;
    let mut place = Place::begin(rt.alloc(), &audited)?;
    stepped(rt.alloc(), &mut place, 1)?;
    stepped(rt.alloc(), &mut place, 1)?;
    assert_eq!(rt; stepped_back(rt.alloc(), &mut place, 0)?, (2, 1));
    assert_eq!(rt; stepped_back(rt.alloc(), &mut place, 1)?, (2, 0));
    assert_eq!(rt; stepped_back(rt.alloc(), &mut place, 1)?, (2, 0));
    Ok(())
}

/// The counts after the least cut with the instruction is gone to, if it is one.
fn sought(alloc: Global, audited: &Audited, at: Instr) -> Result<(u32, u32), AllocError> {
    let mut place = Place::begin(alloc, audited)?;
    let totals = audited.recording().totals.as_slice();
    if (at.core as usize) < totals.len() && 1 <= at.count && at.count <= totals[at.core as usize] {
        let to = cut_with(audited, at)?;
        place.seek(alloc, &to)?;
    }
    Ok(counts(&place))
}

// By replays from the beginning.
#[test]
fn cuts_are_gone_to(rt: HostRuntime) -> Result<(), Fail> {
    let audited = handed_over(rt.alloc())?;
    assert_eq!(rt;
        sought(rt.alloc(), &audited, Instr { core: 0, count: 5 })?,
        (5, 3)
    );
    assert_eq!(rt;
        sought(rt.alloc(), &audited, Instr { core: 1, count: 2 })?,
        (3, 2)
    );
    assert_eq!(rt;
        sought(rt.alloc(), &audited, Instr { core: 1, count: 1 })?,
        (0, 1)
    );
    Ok(())
}
