//! The program `rtr_hunt` but for `main`: from words and an image to the runs that break a claim.
//!
//! Proved: for words that ask for a hunt, `run_hunt` says by `HuntAnswers` what each exit guarantees of input, output
//! and report (`answered`). What is printed is what the hunt finds of the runs by policy and number (`Finds`): `first`
//! the first run of the range that breaks the demand, or that none does; `table` each way to end, counted, with the
//! least run that ends so; turns that are told break the demand and are least in steps, and only a run by a seed is
//! shown without turns, where those of its accesses don't break the demand; and the line for `rtr`, as well as what
//! `record` gives, are of just the run that is meant. Words that ask for nothing end at `Usage`, and nothing is touched
//! (`idle`). A fault of a stream is told only where its count rose (`faults`), and of an image all that is found is
//! given, but for such faults and want of memory (`complete`). The status is that of the exit (`conclude`). None of it
//! rests on the pace at which runs are made.
#![tactic(auto)]

mod acts;
mod ends;
mod exits;
mod firsts;
mod images;
mod program;
mod ranges;
mod records;
mod runs;
mod shows;
mod smalls;
mod tables;
mod tool;
mod watched;

pub use exits::HuntExit;
pub use program::{conclude, run_program};
pub use tool::run_hunt;
