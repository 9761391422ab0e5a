//! The regulated log, made as retirements and edges come: strided vectors that imply the edges, without a history.
//!
//! The regulator asks of each pair of cores one thing at a time: is the position known that the strides of the open
//! vector give next? It awaits that position, and looks once, when the target's instruction with its count retires. Its
//! contract says nothing of what it awaits.
//!
//! Proved: `Regulator` makes exactly the greedy vectors of the edges that it is told, by what is known at the
//! retirements that it is told (`follows`). It keeps no history. `greedy_law` says the vectors by runs of edges.
#![tactic(auto)]

pub mod laws;
mod open_vector;
mod regulator;
mod seat;

pub use regulator::Regulator;
