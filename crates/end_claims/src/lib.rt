//! Claims on how a run ends: their text, what they say of an end, and the answers that are printed. A claim is
//! alternatives of atoms, such as `[10ac]=6,all:exit|1:x7<0`. An end is what the outcome of a run has: its cores and its
//! words of memory.
//!
//! Proved: each function computes a definition. `read_claim` gives what a text claims (`claim_of`), and nothing exactly
//! where a text claims nothing. `holds_at` gives what a claim says of an end, `breaks` which ends break a demand,
//! `named_by` which places a claim names, and `put_answer` how a place's value is printed (`answer`). `parted` and
//! `behind` give the parts of a text around a character.
#![tactic(auto)]

mod asking;
mod claim;
mod demands;
mod naming;
mod numbers;
mod places;
mod reading;
mod spelling;
mod views;

pub use asking::{compares, has_values, holds_at, stop_number, value_at, values_at};
pub use claim::{Alternative, Atom, Claim, Comparison, Demand, Place, Right};
pub use demands::{breaks, demand_places, demand_within};
pub use naming::{named_by, names_within, places_within};
pub use numbers::{behind, parted};
pub use places::read_places;
pub use reading::read_claim;
pub use spelling::put_answer;
pub use views::{EndView, OutcomeView};
