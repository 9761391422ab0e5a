//! A recording of two cores.
use debug_place::Place;
use log_codec::read;
use replay_audit::{Audited, audit};
use row_texts::HANDED_OVER;
use rtr_types::Which;
use std::alloc::Global;
use std::test::Fail;

/// The recording, audited by its reduced log.
pub fn handed_over(alloc: Global) -> Result<Audited, Fail> {
    Ok(audit(alloc, read(alloc, &HANDED_OVER)?, Which::Reduced)?)
}

/// How many instructions of the two cores are done.
pub fn counts(place: &Place) -> (u32, u32) {
    let cut = place.cut();
    (cut.counts[0], cut.counts[1])
}
