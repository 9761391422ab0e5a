//! The replay on several threads: a worker for each core, and rounds in which each takes a turn at a table that all
//! share.
//!
//! A worker's local instructions go in runs. It publishes its count where the log lets another core wait for it, at the
//! end of its turn, and 1,024 instructions after it last did. A turn gives up after 64 loads in a row that brought
//! nothing new. A group's round ends after 256 idle passes in a row, after each of which it yields. No clause says that
//! turns ran at the same time.
//!
//! Proved: if it returns, `replay_parallel` answers `Ran` exactly where the recording is determinate by the log, and
//! `Unsure` exactly where it isn't. This holds for 1 to 8 threads and any gate. `Ran` has a closed table whose outcome
//! is the low order's. `Worker::turn` returns, and at each answer the core is published where some replay order's play
//! has it. `Ended` comes at its total, and `Waiting` after at least 64 loads of the done word of a logged source that
//! isn't seen. `Short` and `Raced` come in no determinate recording. The closed table is the end of a whole replay
//! order with the accesses of its play (`RanOut`, field `ended`).
#![tactic(auto)]

mod groups;
mod joint;
mod rounds;
mod turns;
mod waits;
mod wanted;
mod worker;

pub use joint::{Joint, replay_parallel};
pub use replay_table::{Gate, OpenGate};
pub use turns::Turn;
pub use worker::Worker;
