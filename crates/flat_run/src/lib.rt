//! A run of the flat machine from its start to its end, without a log: each core's loads alone are kept.
//!
//! Proved: `run_flat` answers the definition's outcome of exactly this image, these parameters and this schedule
//! (`outcome`), which is that of `run_image`. `ended`: it is taken where each core's program is done, and at no moment
//! before. `image` comes back.
#![tactic(auto)]

mod run;

pub use run::run_flat;
