//! Recordings of cores with store buffers as bytes (version 3): the reduced log and the words of logged loads. The
//! order of memory is total store order, as RISC-V's extension Ztso has it. Parameters, image, totals and the reduced
//! log are spelled as version 2 of a recording has them.
//!
//! Proved: `tso_read` reads exactly what `tso_spell` writes (`found`, `only`, `exact`). Each recording has one
//! spelling, and none begins another (`spelling_laws`). `bad_part_law`: each of the parts 1 to 6 is named exactly where
//! the parts below are spelled by a front of the bytes and no valid one follows. Both readers of other recordings
//! answer part 1 to these bytes, and this reader answers it to theirs (`spelling_laws`).
#![tactic(auto)]

pub mod laws;
mod reading;
mod recording;
mod writing;

pub use reading::tso_read;
pub use recording::{END, TsoRecording, VALUES};
pub use writing::tso_spell;
