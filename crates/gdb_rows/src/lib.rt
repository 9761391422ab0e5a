//! Worked examples of the debugger's program, as tables over its top calls.
//!
//! Tested: sixteen calls for core files, with sums that a plain program made, words that mean nothing, refusals, and
//! streams that fail. Eighteen calls have sessions, to the byte. One has whatever may come over a line; others have
//! words that mean nothing, refusals behind the first acknowledgement, an input that ends early, and streams that fail.
#![tactic(auto)]

#[cfg(test)]
mod calls;
#[cfg(test)]
mod core_rows;
#[cfg(test)]
mod core_tests;
#[cfg(test)]
mod session_calls;
#[cfg(test)]
mod session_rows;
#[cfg(test)]
mod session_tests;
