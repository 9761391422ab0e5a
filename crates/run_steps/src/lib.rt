//! Runs that are made step by step, whichever the machine is and whatever is kept of them: one loop for all. The crate
//! also has what a machine has come to at its end, and the clerk of runs that keep each core's loads and no log.
//!
//! Proved: `run_to_end` steps any machine (`SteppedMachine`, `Stepping`) that stands on its way through a run until no
//! step is left. Then it stands at some moment of the same run, and its image is the same; it ends, since each turn
//! leaves fewer steps. `outcome_at_end`: once no step is left, its cores and its final memory, whatever rides.
//! `totals_of`: how many instructions each core executed. `LoadClerk`, told by either machine, has in each core's list
//! what an access that reads got, and what a logged load got. `into_loads` hands the lists out.
#![tactic(auto)]

mod ends;
mod load_clerk;
mod running;
mod stepping;

pub use ends::{outcome_at_end, totals_of};
pub use load_clerk::LoadClerk;
pub use running::{Made, Running};
pub use stepping::{Stepping, run_to_end};
