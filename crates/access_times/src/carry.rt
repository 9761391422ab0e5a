//! What rides on actors and messages.
ghost use Rattle.std.specs.Prelude.{◌≡◌};
ghost use Rattle.access_times.specs.Riding.{Carrying};

use rtr_types::Instr;

/// Instrumentation metadata attached to an agent, a core with its cache or the home, and to each message. A message has
/// a copy of its sender's carry, which is joined with the receiver's.
pub trait Carry: Copy {
    /// What the three calls compute.
    ghost carrying: { Carrying Self };

    /// A carry that holds nothing.
    fn none() -> Self
        ensures { result ≡ carrying.none };

    /// Becomes what either of the two holds.
    fn join(&mut self, other: &Self)
        ensures { self.new ≡ carrying.joined self.old other.now };

    /// Becomes the carry of a core once it has retired the instruction.
    fn retire(&mut self, at: Instr)
        ensures { self.new ≡ carrying.retired self.old at };
}

/// The carry that holds nothing.
#[derive(Clone, Copy, Debug, Default, PartialEq, Eq)]
pub struct NoCarry;

impl Carry for NoCarry {
    ghost carrying = { record { none = record {}; joined = λ a b. a; retired = λ a b. a } };

    fn none() -> Self {
        NoCarry
    }

    fn join(&mut self, _other: &Self) {}

    fn retire(&mut self, _at: Instr) {}
}
