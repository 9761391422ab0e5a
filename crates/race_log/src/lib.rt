//! Recordings as values: parameters, image, totals and both logs, which of them are valid, and each log's edges. The
//! crate knows no bytes.
//!
//! Replays, audits, cuts and the debugger stand on values alone, so a change of the format proves none of them again.
//!
//! Proved: `source` is the count of the one edge from a core to an instruction, or none, in either log (clauses
//! `found`, `only`). `reduced_source_near` answers the same by a guess, and `edge_count` is the length of the log's
//! list of edges. `copied` is the same recording, and `copied_with` is the same but for its regulated log.
//! `validity_laws`: validity can be computed, and says what each pair's lists are. `source_laws`: a log's edges are
//! those of its pairs and lie within the totals, and at most one leads from a core to an instruction.
#![tactic(auto)]

mod copies;
mod laws;
mod recording;
mod sources;

pub use laws::{source_laws, validity_laws};
pub use recording::{Recording, item_count};
