//! What rides on copies in the tests of the tables.
ghost use Rattle.std.specs.Prelude.{◌*◌, ◌+◌, ◌%◌, ◌^◌};

use access_times::Rider;

/// A rider whose decimal digits are the riders that it absorbed, in order, after its own.
#[derive(Clone, Copy, PartialEq, Eq)]
pub(crate) struct Trail {
    pub(crate) digits: u32,
}

impl Rider for Trail {
    ghost riding = { record {
      fresh = record { digits = 0 };
      absorbed = λ a b. record { digits = (a.digits * 10 % 2 ^ 32 + b.digits) % 2 ^ 32 };
    } };

    fn fresh() -> Self {
        Trail { digits: 0 }
    }

    fn absorb(&mut self, other: &Self) {
        self.digits = self.digits.wrapping_mul(10).wrapping_add(other.digits);
    }

    fn copy_from(&mut self, other: &Self) {
        self.digits = other.digits;
    }

    fn renew(&mut self, other: &Self) {
        self.digits = other.digits.wrapping_mul(10).wrapping_add(self.digits);
    }

    fn forget(&mut self) {
        self.digits = 0;
    }
}
