//! What both machines have in common at their ports, whatever a core is. It says who may write a block, which move a
//! mark stands for, which move a step takes, and what a run asks of a machine (`SteppedMachine`). At the end each
//! block's words are at hand. The crate has definitions and laws, and that trait.
//!
//! Proved: where the memory system's invariant holds, at most one cache may write a block and then no other may read it
//! (`ports_agree`, clause `writers`). Where nothing is under way, each block's words are at hand (clause `words`).
#![tactic(auto)]

mod laws;
mod stepped;

pub use laws::ports_agree;
pub use stepped::SteppedMachine;
