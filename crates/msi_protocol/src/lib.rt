//! One block under any moves: its invariant and laws, the block with its copies, and what home and caches show of it.
//! The laws are about every list of moves of the cores below `CORES_MAX`. They hold of fewer cores too, whose lists are
//! those in which no other core moves. The crate has laws alone.
//!
//! Proved: at most one cache may write a block, and then no other may read it (`one_writer`). This holds of every
//! number of cores up to sixteen and of every list of moves. Each message has a row where it arrives
//! (`each_message_has_a_row`), and a busy block has something under way (`a_busy_block_moves`).
#![tactic(auto)]

mod laws;
mod whole_messages;

pub use laws::{
    a_busy_block_moves, a_quiet_block_agrees, each_message_has_a_row, few_messages_are_under_way,
    fewer_cores_stay_alone, moves_keep_the_invariant, no_core_is_forgotten, one_writer,
    the_example_goes_so,
};
pub use whole_messages::controllers_make_these_moves;
