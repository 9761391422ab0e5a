//! What `rtr_hunt` prints: the run that was found or made small, the table of a range, the line for `rtr`, what it
//! reports of runs that break a claim, and what it tells a person whose words ask for nothing.
//!
//! Proved: each function puts the text that is defined, to the byte (`none_text`, `shown_text`, `table_text`,
//! `words_text`, `found_report`, `broken_report`, `whole_report`). What `usage_told` answers is a function of the fault
//! that `hunt_words::fault` finds (clause `told`), and the text of `table` has each verb's line of use (`table`).
#![tactic(auto)]

mod reports;
mod shown;
mod tables;
mod told;
mod uses;

pub use reports::{broken_report, found_report, whole_report};
pub use shown::{Shown, none_text, put_shown, run_text, words_text};
pub use tables::table_text;
pub use told::usage_told;
pub use uses::table;
