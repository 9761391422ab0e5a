//! The logged sources of an instruction.

use clock_core::Clock;
use rtr_types::Instr;

/// An instruction with its logged sources, which are lent: for each core the count from which the log has
/// an edge to it, and 0 where there is none. There may be no such counts at all.
#[derive(Clone, Copy)]
pub struct Sourced<'a> {
    pub at: Instr,
    pub sources: &'a Option<Clock>,
}
