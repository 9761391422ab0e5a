//! Policies: who of the actors that may act makes the next access.
//!
//! Proved: each policy picks and remembers as its definition says (`straight_policy`, `turns_policy`, `walk_policy`,
//! `ranked_policy`), through `Policy`'s clauses; it begins as defined (`turns_begun`, `words_of`, `ranked_begun`); and
//! the name of a policy and a number mean the run that is defined (`numbered_by`). The turns of picks are those that
//! have them picked (`turns_of_picks`).
#![tactic(auto)]

mod actor_set;
mod named;
mod picked;
mod policy;
mod ranked;
mod straight;
mod turns;
mod walk;

pub use actor_set::ActorSet;
pub use named::{Named, Numbered};
pub use picked::turns_of_picks;
pub use policy::Policy;
pub use ranked::Ranks;
pub use straight::Straight;
pub use turns::ByTurns;
pub use walk::Walk;
