//! The way through as many instructions as a run may have.
use cut_moves::whole;
use debug_place::Place;
use log_codec::read;
use replay_audit::{Audited, audit};
use rtr_types::{Cut, Which};
use std::alloc::{AllocError, Global};
use std::test::Fail;

/// Four cores that count down from 1,000,000, each for itself: `record --cores 4 --limit 1000000 --words 96`. Each
/// comes to its limit.
const COUNTS_DOWN: [u8; 58] = [
    0x52, 0x54, 0x52, 0x02, 0x04, 0xc0, 0x84, 0x3d, 0x60, 0x14, 0xb7, 0x42, 0x0f, 0x00, 0x93, 0x82,
    0x02, 0x24, 0x93, 0x82, 0xf2, 0xff, 0xe3, 0x9e, 0x02, 0xfe, 0x73, 0, 0, 0, 0xc0, 0x84, 0x3d,
    0xc0, 0x84, 0x3d, 0xc0, 0x84, 0x3d, 0xc0, 0x84, 0x3d, 0, 0, 0, 0, 0, 0, 0, 0, 0, 0, 0, 0, 0, 0,
    0, 0,
];

/// Where a place is behind the way to the end.
fn gone_through(alloc: Global, audited: &Audited) -> Result<Cut, AllocError> {
    // The recording is valid, so the cut with all instructions is closed.
    let _ = audited.recording();
    let mut place = Place::begin(alloc, audited)?;
    place.move_on(alloc, &whole(audited))?;
    Ok(place.cut())
}

// As the gate builds it, it takes less than a second; `rt try` wants `--seconds 600` for it.
#[test]
fn a_place_goes_through_four_million_instructions(rt: HostRuntime) -> Result<(), Fail> {
    let audited = audit(rt.alloc(), read(rt.alloc(), &COUNTS_DOWN)?, Which::Reduced)?;
    let cut = gone_through(rt.alloc(), &audited)?;
    assert!(rt; cut.counts[..4] == [1_000_000; 4]);
    Ok(())
}
