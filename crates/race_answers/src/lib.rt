//! What is told of an audited run: of a word's accesses, of edges, waits, conflicts and decisions, and of the whole.
//!
//! `decisions_told` groups the edges of the log by pc and word, which say the kind of each access too: a program doesn't
//! change itself. It counts by a hash, in one pass over the edges, and looks up the other way there.
//!
//! Proved: what is told of a word, an edge or a conflict is that of `race_queries`' definitions at the cut.
//! `decisions_told` tells one row for each two sites (pc and word) between which an edge of the log leads: how many edges
//! lead this way, how many the other, and the last one. What goes both ways comes first, and then what is rare
//! (`AreDecisions`). `why_told` tells the chain of edges by which an instruction waited (`AreWaits`). `history_told`
//! tells all accesses to a word, those that write it, or those of a core (`chosen`). `trace_told` tells a core's
//! instructions around one (`around`). `calls_told` tells how often each core came to a pc, and the first and the last
//! time (`visits`). `info_told` is a function of the audit (`info_text`). An instruction's pc is where its core is in the state of a closed cut that has all of the
//! core's instructions before it, and not it. There is one (`IsPcOf`, `one_pc`). If what is named isn't there, that is
//! told. Each is refused for want of memory alone.
#![tactic(auto)]

mod about;
mod asking;
mod conflicts;
mod decision_rows;
mod decisions;
mod edges;
mod filters;
mod instrs;
pub mod laws;
mod missing;
mod pcs;
mod sites;
mod traces;
mod visits;
mod waits_told;

pub use about::info_told;
pub use asking::{history_told, readers_told, writer_told};
pub use conflicts::conflicts_told;
pub use decision_rows::decisions_told;
pub use edges::edges_told;
pub use instrs::put_word;
pub use missing::no_instr;
pub use traces::trace_told;
pub use visits::calls_told;
pub use waits_told::why_told;
