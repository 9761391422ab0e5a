//! Certificates as bytes: a recording's first five parts, and for each core a clock at each of its edge ends. An edge
//! end is an instruction at which an edge of the reduced log begins or ends.
//!
//! Proved: `read_certificate` gives exactly the reading, with the first part that has none, and `spell_certificate` a
//! spelling. `bad_part_law`: a reading that fails names part k exactly where the parts below are spelled by a front of
//! the bytes and no valid part k follows. `certificate_spellings`: what is read is spelled so, what is spelled is read,
//! and no spelling begins another, whichever version the recordings are in. `EdgeEnds` are the reduced edges and each
//! core's edge ends in rising order.
#![tactic(auto)]

mod certificate;
mod core_entries;
mod edge_ends;
mod edge_lists;
pub mod laws;
mod reading;
mod writing;

pub use certificate::{CLOCKS, Certificate, END};
pub use core_entries::CoreEntries;
pub use edge_ends::EdgeEnds;
pub use reading::read_certificate;
pub use writing::spell_certificate;
