//! What a program tells a person whose words mean nothing: which word is at fault and why, and how commands are used.
//!
//! Proved: what `usage_told` answers is a function of the fault that `tool_words::fault` finds (clause `told`), and a
//! command's line of use names just the options that the command takes (`use_line`).
#![tactic(auto)]

mod questions;
mod told;
mod uses;

pub use questions::{Question, asked};
pub use told::{fault_line, usage_told};
pub use uses::{table, use_line};
