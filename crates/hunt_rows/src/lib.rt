//! Worked examples of `rtr_hunt`, as tables over its top call.
//!
//! Tested: the run that is found, made small and told in words, tables, on cores with and without store buffers, words
//! that ask for nothing, and refusals, to the byte. The rows were made by a plain program.
#![tactic(auto)]

#[cfg(test)]
mod calls;
#[cfg(test)]
mod rows;
#[cfg(test)]
mod tests;
