//! What accesses find, and the final memory: the copies of a block that count have the words of the memory. The crate
//! has laws alone.
//!
//! Proved: each access of a run finds what the last earlier access to its word left, or what the image has there
//! (`an_access_finds_the_last_value`). So is each word of the final memory (`final_memory_law`).
//! `every_step_keeps_data`: each step keeps the words of the copies that count.
//! An access that finds what the earlier ones of a list left leaves their memory, but for its own word where it writes
//! (`one_access_more`).
#![tactic(auto)]

mod laws;

pub use laws::{
    a_start_has_what_the_image_has, a_word_has_what_was_written_last,
    an_access_finds_the_last_value, every_step_keeps_data, final_memory_law, one_access_more,
    the_end_has_the_memory,
};
