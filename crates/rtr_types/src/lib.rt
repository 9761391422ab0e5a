//! Instructions, accesses, the edges between them, sets of cores and the parameters of a run: the types of every layer.
//! The crate also has the sizes that all layers cite, lists of items, and pairs of cores with the edges of each.
//!
//! Sets of cores are known by laws above this crate, but in three crates whose code reads their bits: `move_marks`,
//! `access_times` and `online_reduce`. More cores change the definition and the field of their width, the places and
//! the mask of `move_marks`, and the room of an `EdgeList`.
//!
//! Proved: `sizes_law` ties each size to its number, the lines of a cache among them, and `Params::fits` is exactly the
//! ranges. One of these is that of cores times limit. `pair_at` is the place of an ordered pair of cores, and these
//! places have no gap (`pair_laws`). `CoreSet` is a set by its calls' clauses and by `core_set_laws`.
#![tactic(auto)]

mod access;
mod core_set;
mod cut;
mod instr;
mod items;
mod pairs;
mod params;

pub use access::{Access, Kind};
pub use core_set::{CoreSet, core_set_laws};
pub use cut::Cut;
pub use instr::{Edge, Instr};
pub use items::Items;
pub use pairs::{Which, pair_at, pair_count, pair_laws, pair_of};
pub use params::{INSTRUCTIONS_MAX, LIMIT_MAX, Params, WORDS_MAX, WORDS_MIN, sizes_law};

/// The greatest number of cores of a machine. Every array, capacity and inline size that counts
/// cores is written with it.
pub const CORES_MAX: u8 = 16;

/// How many words a block has: what caches, home and messages hold and move at once. A word's block is
/// `word / BLOCK_WORDS`, its slot in the block is `word % BLOCK_WORDS`.
pub const BLOCK_WORDS: usize = 4;

/// How many lines a cache has. It is direct-mapped: block `b` goes to line `b % LINES`.
pub const LINES: usize = 16;
