//! What a retirement keeps: a reduction stands for the retirements that it was told of, with the noted clocks. Every
//! recorder's clerk keeps this. It speaks of no core's count. The crate has definitions and laws alone.
//!
//! Proved: a retirement with an access keeps that a reduction stands for the accesses told, with exact noted clocks
//! (`a_retirement_keeps_it`).
#![tactic(auto)]

pub mod laws;
