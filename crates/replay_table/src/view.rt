//! What a seat knows of the table. No value of these types is ever made: they are what contracts and the
//! table's rule speak of.

use replay_audit::Touch;
use rv_core::{Core, LoadNote};
use std::collections::LinkedList;

/// A core that a seat owns: the core after the instructions that its seat has executed, the count that
/// was published, what its loads and atomic memory operations got, and its accesses.
pub struct Own {
    pub core: Core,
    pub published: u32,
    pub loads: LinkedList<LoadNote>,
    pub touched: LinkedList<Touch>,
}

/// The cores that a seat owns, what it has seen of each core's done word and how often it looked, the word
/// that it holds, and how many of its exchanges have failed.
pub struct View {
    pub owned: LinkedList<Own>,
    pub seen: LinkedList<u32>,
    pub polls: LinkedList<u64>,
    pub held: Option<u32>,
    pub failed: u64,
}
