//! How far a replay has come.

use crate::CORES_MAX;

/// A place for each core, as the length of an array.
const PLACES: usize = CORES_MAX as usize;

/// A cut of a recorded run: for each of its `cores` cores, 1 to 16, the number of its first
/// instructions that lie in the cut. The places from `cores` on are 0.
#[derive(Clone, Copy, Debug, PartialEq, Eq)]
pub struct Cut {
    pub cores: u8,
    pub counts: [u32; PLACES],
}
