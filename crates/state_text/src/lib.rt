//! The texts that the tool prints: exits with their reports, states, logs, cuts and checks. Each line ends with one
//! line feed, and each text is a list of bytes that the definitions in `specs/` give line by line.
//!
//! Proved: `state_text`, `cut_state_text`, `logs_text`, `check_text`, `needed_text`, `fault_text` and `status` are
//! their definitions, byte for byte.
#![tactic(auto)]

mod checks;
mod cuts;
mod exit;
mod faults;
mod hex_word;
mod logs;
mod states;

pub use checks::{check_text, needed_text};
pub use cuts::cut_state_text;
pub use exit::Exit;
pub use faults::{FAULT_TEXT_MAX, FaultText, fault_text};
pub use logs::logs_text;
pub use states::{state_text, stop_name};
