//! What ordered accesses find, which loads are logged, and the final memory. The copies of a block that count have the
//! words of the memory that the ordered accesses make. The crate has laws alone.
//!
//! Proved: an ordered access finds what the last ordered write to its word left (`an_access_finds_the_last_value`). A
//! pending load is ordered exactly where its port can read the block and has its value still, and is logged with its
//! value elsewhere (`a_load_leaves_with_its_value`). The final memory is what the last ordered writes left
//! (`final_memory_law`). Where the memory opens with words below 2^32, so are the words that loads are logged with, along
//! every run (`words_stay_words`, clause `told`). It opens so where the image has bytes (clause `opens`).
#![tactic(auto)]

mod laws;

pub use laws::{
    a_load_leaves_with_its_value, an_access_finds_the_last_value, every_step_keeps_data,
    final_memory_law, the_end_has_the_memory, words_stay_words,
};
