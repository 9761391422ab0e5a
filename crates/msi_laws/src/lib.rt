//! The memory system's invariant and progress: rows, room, what a port waits for, and the words of its copies. The
//! invariant is one link from its state to the blocks of the protocol, by whole messages. No message is left to wait
//! for ever. The crate has laws alone.
//!
//! Proved: the invariant holds at the start, and each act that can be made keeps it (`acts_keep_the_invariant`); with
//! it the words of the copies are kept (`acts_keep_words`). In it at most one cache may write a block, and then no
//! other may read it (`one_writer_everywhere`). Each message has a row and each answer room (`acts_are_ready`). While a
//! port waits something can be taken, and where none waits nothing is under way (`a_memory_is_never_stuck`). A port
//! waits for what it was asked for until its data come, which allow it (`a_port_waits_for_one_access`).
#![tactic(auto)]

mod laws;

pub use laws::{
    a_memory_is_never_stuck, a_port_waits_for_one_access, a_touch_finds_the_words, acts_are_ready,
    acts_keep_the_invariant, acts_keep_words, one_writer_everywhere,
};
