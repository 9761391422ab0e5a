//! What the recorder's machine carries: nothing.
ghost use Rattle.access_times.specs.Riding.{none_carrying};

use access_times::Carry;
use rtr_types::Instr;
use std::marker::Model;

/// The carry that holds nothing, which contracts see as the one value of the unit type, as the definitions of runs do.
#[derive(Clone, Copy)]
pub(crate) struct Uncarried;

impl Model for Uncarried {
    ghost Value = { Unit {0} };

    ghost view = { λ a. tt };

    ghost inverse = { λ u. record {} };
}

impl Carry for Uncarried {
    ghost carrying = { none_carrying };

    fn none() -> Self {
        Uncarried
    }

    fn join(&mut self, _other: &Self) {}

    fn retire(&mut self, _at: Instr) {}
}
