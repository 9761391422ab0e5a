//! A run of the machine from its start to its end, without a log: each core's loads alone are kept.
//!
//! Proved: `run_image` answers the definition's outcome of exactly this image, these parameters and this schedule
//! (`outcome`), with nothing that rides and no log. `ended`: it is taken where each core's program is done, and at no
//! moment before. `image` comes back.
#![tactic(auto)]

mod run;

pub use run::{Ran, run_image};
