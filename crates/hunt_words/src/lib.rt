//! The words of `rtr_hunt`'s command line, and the line of words by which `rtr` records a run.
//!
//! Proved: `meaning` is the definition of what words ask for (`meaning`), and all that it gives lies in its ranges
//! (`IsFitting`): the machine has each core and word that is named. `fault` answers exactly the first word that no list
//! of words which asks for something has there, with the reason (clauses `first`, `why`, `none`). `put_line` writes the
//! line of a run (`line`), whose words are those of `line_words` between single spaces, and which `rtr`'s own reader
//! takes for the command that records exactly this run (`lines_mean_their_runs`).
#![tactic(auto)]

mod faults;
mod given;
mod hunt;
mod line;
mod names;
mod numerals;
mod open;
mod options;
mod reading;
mod refusals;
mod stops;
mod values;
mod verbs;

pub use faults::{Fault, Missing, Why};
pub use hunt::{Hunt, RunName, Runs, Setup};
pub use line::{lines_mean_their_runs, put_line};
pub use names::Name;
pub use options::HUNT_THREADS_MAX;
pub use reading::meaning;
pub use stops::fault;
pub use values::{LAST_DEFAULT, RUN_MAX};
pub use verbs::Verb;
