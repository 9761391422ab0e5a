//! What is known of other cores' instructions at each retirement, as the counts at which more became known. The carry
//! that counts it is here too.
//!
//! Contracts see a table with a row for each retirement, so a body that keeps each row has the same contract.
//!
//! Proved: `History` keeps the counts at which more became known. `at` is what was noted, by a search, and `changes`
//! counts the changes. After `ready` a note takes no memory.
#![tactic(auto)]

mod changes;
mod history;
mod known;
pub mod laws;

pub use history::History;
pub use known::Known;
