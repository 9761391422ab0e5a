//! The first run of a range that breaks a claim, and the table of how a range's runs end, by as many threads as one
//! likes.
//!
//! Proved: each function's clause says its answer of the whole range, whatever the threads: `IsFirst` that a run breaks
//! the claim and none before it does, or that none does, and `IsTable` that of each way to end the table has the runs
//! that end so, counted, with the least of them, and in rising order. How long a round's batches are says `batch_after`
//! of the time that the round before took; nothing that is answered rests on it.
#![tactic(auto)]

mod batches;
mod firsts;
mod rows;
mod tables;
mod trial;

pub use batches::Batch;
pub use firsts::{first_in, first_of_range};
pub use rows::Row;
pub use tables::{table_in, table_of_range};
pub use trial::{Asked, Pace, Runs, Seen, Trial};
