//! The thinned recording, and the parts that its bytes have beyond a recording's first five.
use race_log::Recording;
use rtr_types::{Cut, Items};

/// The sixth part: for each vector the number of an edge, and a count of each core.
pub const SHOWN: u8 = 6;

/// The seventh part: the end, where no byte stands.
pub const END: u8 = 7;

/// What shows that a vector is needed: one of its edges, and a cut that is closed under the other vectors
/// and has the edge's target, but not its source. So no path of the others leads from the source to the
/// target.
#[derive(Clone, Copy)]
pub struct Shown {
    /// The number of the edge's position in the vector, from 0.
    pub edge: u32,
    /// For each core how many of its first instructions lie in the cut, at most its total.
    pub cut: Cut,
}

/// A recording with what shows that each vector of its regulated log is needed.
#[derive(Drop)]
pub struct Thinned {
    /// The recording.
    pub recording: Recording,
    /// For each vector, by pair and within a pair in their order, what shows that it is needed.
    pub shown: Items<Shown>,
}
