//! A recording of two cores, one of a core that ends at an EBREAK, and one of a core that loads a word 5,000 times.
use log_codec::read;
use replay_audit::{Audited, audit};
use row_texts::HANDED_OVER;
use rtr_types::Which;
use std::alloc::Global;
use std::test::Fail;

/// The recording, audited by its reduced log.
pub fn handed_over(alloc: Global) -> Result<Audited, Fail> {
    Ok(audit(alloc, read(alloc, &HANDED_OVER)?, Which::Reduced)?)
}

/// One core, which runs a NOP and an EBREAK: `record --cores 1 --words 96`.
const ONE_BREAK: [u8; 18] = [
    0x52, 0x54, 0x52, 0x02, 0x01, 0x90, 0x4e, 0x60, 0x08, 0x13, 0, 0, 0, 0x73, 0, 0x10, 0, 2,
];

/// That recording, audited by its reduced log.
pub fn one_break(alloc: Global) -> Result<Audited, Fail> {
    Ok(audit(alloc, read(alloc, &ONE_BREAK)?, Which::Reduced)?)
}

/// One core, which loads the word at address 64 in a loop: `record --cores 1 --limit 20000 --words 96`.
const MANY_LOADS: [u8; 36] = [
    0x52, 0x54, 0x52, 0x02, 0x01, 0xa0, 0x9c, 0x01, 0x60, 0x18, 0xb7, 0x12, 0, 0, 0x93, 0x82, 0x82,
    0x38, 0x03, 0x23, 0, 0x04, 0x93, 0x82, 0xf2, 0xff, 0xe3, 0x9c, 0x02, 0xfe, 0x73, 0, 0, 0, 0x9b,
    0x75,
];

/// That recording, audited by its reduced log.
pub fn many_loads(alloc: Global) -> Result<Audited, Fail> {
    Ok(audit(alloc, read(alloc, &MANY_LOADS)?, Which::Reduced)?)
}
