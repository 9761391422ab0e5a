//! What tests by rows share: the bytes and words of rows out of their texts, pieces of texts that rows name, recordings
//! that several crates read, and counts of three cores.
//!
//! Tested: by the examples that use it; it has no tests of its own.
#![tactic(auto)]

mod counts;
mod pieces;
mod recordings;

pub use counts::Counts;
pub use pieces::{is_piece, piece};
pub use recordings::{HANDED_ON, HANDED_OVER, HANDED_OVER_REDUCED, STORES};
use std::alloc::{AllocError, Global};

/// The bytes that hexadecimal digits spell; spaces between them are passed over.
pub fn bytes(alloc: Global, digits: &str) -> Result<Vec<u8>, AllocError> {
    let mut bytes = Vec::new(alloc);
    let mut high = None;
    for digit in digits.bytes() {
        let value = match digit {
            b'0'..=b'9' => digit - b'0',
            b'a'..=b'f' => digit - b'a' + 10,
            _ => continue,
        };
        high = match high {
            None => Some(value),
            Some(high) => {
                bytes.push((high % 16) * 16 + value)?;
                None
            }
        };
    }
    Ok(bytes)
}

/// The words of a line, which are parted by single spaces.
pub fn words(alloc: Global, line: &str) -> Result<Vec<String>, AllocError> {
    let mut words = Vec::new(alloc);
    for word in line.split(' ') {
        if !line.is_empty() {
            words.push(String::from_str(alloc, word)?)?;
        }
    }
    Ok(words)
}
