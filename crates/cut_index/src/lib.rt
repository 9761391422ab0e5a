//! Where each core and each word of a recorded run stand at a closed cut, told by an index and not by a replay.
//!
//! A recorded core needs no other core and no memory, only what its own loads read, and by the audit every order gives
//! each load the same. So an index has for each core the address and the access of what comes next at each of its
//! counts, and the core itself at every 1,024th; for each word it has the writes. A core at a count goes on from the
//! last snapshot before it. A word at a cut is what its last write in the cut left, which is found by halving. The index
//! takes 8 bytes an instruction, beside the snapshots, and 12 a write. Addresses and accesses stand in lists of their
//! own, so one looks through the ones without reading the others.
//!
//! Proved: wherever a replay order of a determinate recording has come, each core stands where its own instructions and
//! its own loads have brought it. So at a closed cut it depends on the cut's count of that core alone, and so does what
//! it needs next (`cores_stand_alone`). A word at a closed cut is what the low order's accesses that the cut holds
//! leave of it (`words_are_left`). Of an audited recording, `core` is the core of the state at each closed cut with so
//! many of its instructions, and `next` is what comes next at it there. `pcs` and `uses` have that for each count.
//! `word` is the word of the state at the cut. `Standing` shows at a closed cut just what a replay shows that has come
//! there. Only `Index::of` takes memory, and is refused for want of it alone.
#![tactic(auto)]

mod alone;
mod index;
pub mod laws;
mod runs;
mod standing;
mod touches;
mod writes;

pub use alone::Next;
pub use index::Index;
pub use standing::Standing;
pub use touches::used_by;
