//! What the words of a command line mean: one command with all its options filled in, or nothing. Of words that mean
//! nothing, it tells which of them can't stand where it stands, and why.
//!
//! While words are read, choices are kept as the text that spells them, so reading takes no memory. So want of memory
//! never hides that words mean nothing.
//!
//! Proved: `meaning` is the definition of what words mean. `fault` answers exactly the first word that no list of words
//! which means a command has there, with the reason. `what_words_mean_fits`: its parameters are in range, cores times
//! limit is, and a shape that it names has an image of its number. The number of threads is at most 8 by the definition
//! itself.
#![tactic(auto)]

mod choices;
mod command;
mod faults;
mod numerals;
mod options;
mod reading;

pub use command::{Command, RunWords, Verb};
pub use faults::{Fault, Why};
pub use numerals::number_between;
pub use options::{CORES_DEFAULT, LIMIT_DEFAULT, Name, THREADS_MAX, WORDS_DEFAULT, whole_blocks};
pub use reading::{fault, meaning, what_words_mean_fits};
