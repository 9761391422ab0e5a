//! The accesses of a run, in the order in which they were made, on cores with and without store buffers.
//!
//! Proved: `accesses_of_run` and `tso_accesses_of_run` give exactly the accesses of the machine's run of this image,
//! with these parameters, under this schedule, to its end (`accesses`), and the image back (`image`). On cores with
//! store buffers these are the accesses that were ordered. The only refusal is want of memory.
#![tactic(auto)]

mod buffered;
mod clerk;
mod plain;

pub use buffered::tso_accesses_of_run;
pub use clerk::AccessClerk;
pub use plain::{Noted, accesses_of_run};
