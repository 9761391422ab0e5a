//! Cuts of three cores.
use rtr_types::Cut;

/// How many instructions of each of three cores a cut has, without its other places.
#[derive(Clone, Copy, PartialEq, Eq)]
pub struct Counts {
    /// Those of core 0.
    pub first: u32,
    /// Those of core 1.
    pub second: u32,
    /// Those of core 2.
    pub third: u32,
}

impl Counts {
    /// These counts.
    pub fn new(first: u32, second: u32, third: u32) -> Counts {
        Counts {
            first,
            second,
            third,
        }
    }

    /// The cut's counts.
    pub fn of(cut: &Cut) -> Counts {
        Counts::new(cut.counts[0], cut.counts[1], cut.counts[2])
    }
}
