//! Bytes that several tests begin with.
use std::alloc::{AllocError, Global};

/// Two cores, 16 words, and an image of three words. The totals and the logs follow.
pub const TWO_CORES: [u8; 21] = [
    0x52, 0x54, 0x52, 1, 2, 0x90, 0x4e, 0x10, 0x0c, 0x93, 2, 0x55, 0, 0x23, 0x20, 0x50, 2, 0x73, 0,
    0, 0,
];

/// The bytes one after the other.
pub fn joined(alloc: Global, front: &[u8], rest: &[u8]) -> Result<Vec<u8>, AllocError> {
    let mut out = Vec::new(alloc);
    out.extend_from_slice(front)?;
    out.extend_from_slice(rest)?;
    Ok(out)
}
