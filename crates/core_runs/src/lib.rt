//! Runs of a core: many instructions in one go, each carried out by one match. What they find in memory and leave there
//! is the matter of a `Reach`, which is told of each instruction once.
//!
//! Proved: `run` goes on to a count, to the end of the program or to an instruction that the reach refuses. What has
//! retired is a chain of instructions by the definitions `need`, `after` and `wrote` of `rv_core`, and for each of them
//! the reach was told what it used, found and left (`Goes`, `Retires`). A flat memory is such a reach (`ToldFlat`): each
//! access finds its word there and leaves it there.
#![tactic(auto)]

mod flat;
mod running;

pub use running::{Ran, Reach, Refused, run};
