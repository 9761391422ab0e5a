//! An image of memory as it was loaded, a flat memory of words, and the lanes of a word. Words are little-endian, as
//! the RISC-V Unprivileged ISA (20191213) has them.
//!
//! Proved: `Image::flat`, `fetch` and `word` are their definitions, `Memory` changes one word at a time, and
//! `merge_lanes` is exact lanes.
#![tactic(auto)]

mod image;
mod lanes;
mod memory;

pub use image::{Image, TooLarge};
pub use lanes::{merge_lanes, merged_words};
pub use memory::Memory;
