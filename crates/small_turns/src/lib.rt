//! Turns that break a claim, made small: as few and as short as one step at a time finds them.
//!
//! Proved: `small` says `None` exactly where the given turns don't break the claim. The turns that it gives break it
//! and are no larger than the given ones; no turn can be left out of them, and no count lowered by one, so that the
//! rest still breaks it (`IsSmall`). `small_of_run` gives such turns of a run's acts, and `None` only where the turns
//! in which they were made don't break the claim (`IsSmallOfRun`). `by_conflicts` gives the acts in another order
//! (`IsReordered`), and `turns_made` the turns in which they were made.
#![tactic(auto)]

mod acts;
mod halving;
mod least;
mod lines;
mod orders;
mod passes;
mod tries;

pub use acts::{Act, turns_made};
pub use least::{small, small_of_run};
pub use orders::by_conflicts;
pub use tries::Tries;
