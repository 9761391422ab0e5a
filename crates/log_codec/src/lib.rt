//! Recordings as bytes, in the one spelling that each recording has in each of two versions of the format. The parts
//! are parameters, image, totals and the two logs.
//!
//! Readers never reserve memory by a count from the file. The tests of a header or a vector come after all its numbers
//! are read. Version 1 keeps its limits as numbers of its own; those of version 2 are what a run may have. The edges
//! into a core are merged from one list a source core, and only the front that was taken is renewed.
//!
//! Proved: `read` and `read_front` are exactly the reading of both versions, with the first part that has none
//! (`found`, `only`, `exact`). `spell` gives version 2's spelling of every valid recording, whose limits are those of a
//! run. `spell_v1` gives version 1's of those within its own narrower limits. `bad_part_law`: a reading that fails
//! names part k exactly where the parts below are spelled by a front of the bytes and no valid part k follows.
//! `read_all` reads all bytes by what was read of a front of them; `tso_read`, `read_certificate` and `read_thin` rest
//! on it too. `spelling_laws` and `prefix_free`: what is read is spelled so, what is spelled is read, and no spelling
//! begins another.
#![tactic(auto)]

mod codec_fault;
mod core_counts;
mod fields;
mod fronts;
mod incoming;
mod laws;
mod merging;
mod pairs;
mod reading;
mod targets;
mod vectors;
mod version;
mod writing;

pub use codec_fault::{
    CodecFault, END, HEADER, IMAGE, PairEdges, REDUCED, REGULATED, Reading, TOTALS,
};
pub use core_counts::{counts, counts_into, put_counts};
pub use fields::{image, number, sizes, totals};
pub use laws::{bad_part_law, prefix_free, spelling_laws, version_laws};
pub use merging::put_targets;
pub use race_log::Recording;
pub use reading::{read, read_all, read_front};
pub use targets::by_targets;
pub use version::{Version, fits_old};
pub use writing::{put_sizes, put_totals, spell, spell_v1};
