//! Clerks of tests, for either machine: one that counts what it is told of, and one that notes times and what each
//! access finds.
//!
//! Tested: by the examples that use it; it has no tests of its own.
#![tactic(auto)]

mod counter;
mod noter;

pub use counter::{Counter, Logged};
pub use noter::{Found, Noted, Noter, Read, Told, noted, noted_read};
