//! Whether a log orders each two accesses in conflict of a play, decided run by run along the log's low order.
//!
//! A run is a core that goes on alone: an edge of the log leads to its first instruction only, so one clock serves for
//! all of them. The order is walked once, and nothing is kept or done for an instruction without an access. For each
//! word the last write of each core and its last other access are marked.
//!
//! Proved: `RunOrder::of` answers an order exactly where the log's low order is whole. `RunOrder::judge` answers
//! whether the recording is determinate by the log, by the accesses of the play of any whole replay order. Both are
//! refused for want of memory alone. `TouchNote` keeps an access in eight bytes, and gives it back.
#![tactic(auto)]

mod clocks;
mod marks;
mod notes;
mod order;

pub use notes::TouchNote;
pub use order::RunOrder;
