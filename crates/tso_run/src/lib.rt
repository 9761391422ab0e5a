//! A run of cores with store buffers from its start to its end, without a log: each core's loads alone are kept.
//!
//! Proved: `tso_run` answers the definition's outcome of exactly this image, these parameters and this schedule
//! (`outcome`). It has all loads and atomic memory operations, with the words that they got. `ended`: it is taken where
//! each core's program is done and no access is pending, and at no moment before. `image` comes back.
#![tactic(auto)]

mod run;

pub use run::{TsoRan, tso_run};
