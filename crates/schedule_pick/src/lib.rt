//! Schedules: which of the enabled steps is taken next. A schedule is a list of choice bytes, and after them the 32-bit
//! words of a seeded generator (PCG's XSH RR 64/32), so it never ends.
//!
//! Proved: `Schedule::next` answers the first choice that is left, and `one_choice_after_the_other` numbers those after
//! it.
#![tactic(auto)]

pub mod laws;
mod schedule;

pub use schedule::Schedule;
