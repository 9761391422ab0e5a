//! The certificate, and the parts that its bytes have beyond a recording's first five.
use crate::core_entries::CoreEntries;
use race_log::Recording;
use rtr_types::Items;

/// The sixth part: for each core the number of its edge ends and then a clock for each.
pub const CLOCKS: u8 = 6;

/// The seventh part: the end, where no byte stands.
pub const END: u8 = 7;

/// A recording with a clock entry at each end of its reduced edges. By these entries anyone can check,
/// one edge at a time, that no edge of the reduced log is implied by the others.
#[derive(Drop)]
pub struct Certificate {
    /// The recording.
    pub recording: Recording,
    /// For each core, for each of its edge ends by rising count, a count of each core.
    pub clocks: Items<CoreEntries>,
}
