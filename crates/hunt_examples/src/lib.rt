//! `rtr_hunt` with values from outside: from the words of claims and options, read by hand. It has tests alone.
//!
//! Tested: `end_claims`: what claims say of an end, which ends break a demand, which places a claim names, and how
//! values are printed; `hunt_words` and `hunt_texts`: what words ask for, what is told of words that ask for nothing,
//! the line that records a run, and what is printed of runs and tables.
#![tactic(auto)]

#[cfg(test)]
mod claim_tests;
#[cfg(test)]
mod fault_tests;
#[cfg(test)]
mod line_tests;
#[cfg(test)]
mod place_tests;
#[cfg(test)]
mod print_tests;
#[cfg(test)]
mod word_tests;
