//! Images made by rule, for trying the tool out: Peterson's lock, and a mix of loads, stores and additions that a
//! generator draws. Each is a program of RV32I, and the list of its instructions is its definition.
//!
//! Proved: `gen_image` gives the words of the program's instructions, lowest byte first, 72 bytes for the lock and 1040
//! for the mix. `Shape::takes` is which numbers a shape has. `generated_images`: each instruction fits, and what is
//! fetched at `4 * k` is the word of instruction k and means it.
#![tactic(auto)]

mod assembly;
mod image;
mod laws;
mod programs;
mod shape;

pub use image::gen_image;
pub use laws::generated_images;
pub use shape::Shape;
