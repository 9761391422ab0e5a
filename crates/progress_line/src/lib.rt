//! What a person sees who waits. It stands in a crate of its own, which has no way to write to the standard output.
//!
//! Proved: what is shown after so many seconds is a function of them and of whether there is a terminal (`second_line`),
//! and so is what is shown of runs that are made (`rate_line`): nothing goes to a file or a pipe. Tested: that it is
//! shown, the one each second and the other after each round of runs.
#![tactic(auto)]

mod rate_screen;
mod rates;
mod seconds;

pub use rate_screen::RateScreen;
pub use rates::{blank_line, rate_line};
pub use seconds::{second_line, show};
