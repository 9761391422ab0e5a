//! What rides on a block's copy.
ghost use Rattle.std.specs.Prelude.{◌≡◌};
ghost use Rattle.access_times.specs.Riding.{Riding};

/// Instrumentation metadata attached to a copy of a block. It lies beside the words in each cache's line and at the
/// home, and goes with the messages that move the copy. The controllers never look into it.
pub trait Rider: Drop {
    /// What a rider that holds nothing is, and what absorbing computes.
    ghost riding: { Riding Self };

    /// A rider that holds nothing.
    fn fresh() -> Self
        ensures { result ≡ riding.fresh };

    /// Takes over what another copy's rider holds. Any two riders may meet.
    fn absorb(&mut self, other: &Self)
        ensures { self.new ≡ riding.absorbed self.old other.now };

    /// Becomes equal to another copy's rider, whatever it was. It costs what the other holds.
    fn copy_from(&mut self, other: &Self)
        ensures { self.new ≡ other.now };

    /// Becomes the other once that has absorbed what this rider was.
    fn renew(&mut self, other: &Self)
        ensures { self.new ≡ riding.absorbed other.now self.old };

    /// Becomes a rider that holds nothing, whatever it was.
    fn forget(&mut self)
        ensures { self.new ≡ riding.fresh };
}

/// A rider that is equal to this one.
pub fn copied<R: Rider>(rider: &R) -> R
    ensures { result ≡ rider.now }
{
    let mut copy = R::fresh();
    copy.copy_from(rider);
    copy
}

/// The rider that holds nothing.
#[derive(Clone, Copy, Debug, Default, PartialEq, Eq)]
pub struct NoRider;

impl Rider for NoRider {
    ghost riding = { record { fresh = record {}; absorbed = λ a b. a } };

    fn fresh() -> Self {
        NoRider
    }

    fn absorb(&mut self, _other: &Self) {}

    fn copy_from(&mut self, _other: &Self) {}

    fn renew(&mut self, _other: &Self) {}

    fn forget(&mut self) {}
}
