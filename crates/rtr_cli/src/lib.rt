//! The top call of the tool: from words and an input to an output, a report and an exit.
//!
//! Proved: for words that mean a command, `run_tool` says by `answered` what each exit guarantees of input and output;
//! `Usage` comes exactly where words mean nothing (`usage`). `complete`: a command ends at `Done` for each input that
//! it accepts, unless memory runs out or a stream fails. These clauses stand one by one in docs/PROVED.md.
#![tactic(auto)]

mod buffers;
mod commands;
mod cuts;
mod environment;
mod inputs;
mod joint;
mod laws;
mod soak_texts;
mod soaks;
mod thins;
mod tool;

pub use commands::audited;
pub use cuts::cut_at;
pub use environment::arguments;
pub use joint::Ended;
pub use laws::{
    certify_laws, completeness_laws, each_command_makes_one_output, migrate_laws, thin_laws,
    versions_are_told_apart,
};
pub use soak_texts::soak_text;
pub use tool::{run_alone, run_tool, tell};
