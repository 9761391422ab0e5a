//! By which edges of a log an instruction waited: from the instruction back to where no core waited any more.
//!
//! The last wait up to an instruction is the edge of the log that leads to it, or to the latest instruction before it
//! on its core to which one leads. Of several edges to one instruction it is the first in the log's order. From the
//! edge's source the chain goes on in the same way, so each edge's source stands behind the next one's target on one
//! core.
//!
//! Proved: `chain_of` answers the definition's chain, edge by edge, up to so many edges. It is refused for want of
//! memory alone.
#![tactic(auto)]

mod chains;

pub use chains::{chain_of, last_wait};
