//! Where a recorded run stood at an instruction: its two closed cuts (consistent global states), and the state at a
//! closed cut. They are the least one with the instruction and the greatest one without it.
//!
//! A clock counts the least closed cut with its instruction, so `cut_with` is one look-up, and `cut_without` finds its
//! numbers by halving. Neither takes memory.
//!
//! Proved: of an audited recording, `cut_with` is closed under the log, holds the instruction, and is contained in
//! every closed cut that holds it. `cut_without` is closed, doesn't hold it, and contains every closed cut that
//! doesn't; neither is refused. `state_of` gives the cores, memory and loads of the play of every replay order whose
//! counts are the cut's, and there is one. `has_instr` says whether the recording has the instruction. There is one cut
//! of each kind, and one state (`one_cut_each`, `one_state`).
#![tactic(auto)]

mod closed_cuts;
mod cut_states;
pub mod laws;

pub use closed_cuts::{cut_with, cut_without, has_instr};
pub use cut_states::state_of;
