//! A rider, a carry and a clerk that count, met through their bounds alone.
ghost use Rattle.std.specs.Prelude.{◌≡◌, ◌<◌, ◌+◌, ◌%◌, ◌^◌};

use crate::accesses::access;
use access_times::{Carry, Clerk, NoCarry, NoRider, Rider};
use rtr_types::{Access, Instr, Kind};
use std::test::Fail;

/// Counts what it absorbed: each absorbed rider and what that had absorbed.
#[derive(Clone, Copy, Debug, PartialEq, Eq)]
struct Absorbed {
    riders: u32,
}

impl Rider for Absorbed {
    ghost riding = { record {
      fresh = record { riders = 0 };
      absorbed = λ a b. record { riders = ((a.riders + b.riders) % 2 ^ 32 + 1) % 2 ^ 32 };
    } };

    fn fresh() -> Self {
        Absorbed { riders: 0 }
    }

    fn absorb(&mut self, other: &Self) {
        self.riders = self.riders.wrapping_add(other.riders).wrapping_add(1);
    }

    fn copy_from(&mut self, other: &Self) {
        self.riders = other.riders;
    }

    fn renew(&mut self, other: &Self) {
        self.riders = other.riders.wrapping_add(self.riders).wrapping_add(1);
    }

    fn forget(&mut self) {
        self.riders = 0;
    }
}

/// Counts the retirements that it was told of.
#[derive(Drop)]
struct Counter {
    locals: u32,
    touches: u32,
}

impl<R: Rider, K: Carry> Clerk<R, K> for Counter {
    ghost accepts = { λ c i. (c.locals < 1000) × (c.touches < 1000) };

    ghost told_local = { λ c i k d. (d.locals ≡ c.locals + 1) × (d.touches ≡ c.touches) };

    ghost told_touch = { λ c r a k d q. (d.locals ≡ c.locals) × (d.touches ≡ c.touches + 1) × (q ≡ r) };

    fn local(&mut self, _at: Instr, _carry: &K) {
        self.locals += 1;
    }

    fn touched(&mut self, _access: Access, _rider: &mut R, _carry: &K) {
        self.touches += 1;
    }
}

/// Tells of one retirement with an access, as a machine does.
fn tell<R: Rider, K: Carry, C: Clerk<R, K>>(
    clerk: &mut C,
    rider: &mut R,
    carry: K,
    access: Access,
) -> K
    requires { C.accepts clerk.old access.at }
    ensures carry { result ≡ K.carrying.retired carry access.at }
    ensures told { C.told_touch clerk.old rider.old access (K.carrying.retired carry access.at) clerk.new rider.new }
{
    let mut after = carry;
    after.retire(access.at);
    clerk.touched(access, rider, &after);
    after
}

/// A fresh rider that has absorbed another twice.
fn twice_absorbed<R: Rider>(other: &R) -> R
    ensures { result ≡ R.riding.absorbed (R.riding.absorbed R.riding.fresh other.now) other.now }
{
    let mut rider = R::fresh();
    rider.absorb(other);
    rider.absorb(other);
    rider
}

#[test]
fn counts_through_the_bounds(rt: HostRuntime) {
    let access = Access {
        before: 7,
        after: 7,
        ..access!(1: 3 Load 4)
    };
    let mut clerk = Counter {
        locals: 0,
        touches: 0,
    };
    let mut rider = twice_absorbed(&Absorbed { riders: 5 });
    assert!(rt; rider.riders == 12);
    let carry = tell(&mut clerk, &mut rider, NoCarry::none(), access);
    let mut both = NoCarry;
    both.join(&NoCarry);
    assert!(rt; carry == both);
    assert!(rt; (clerk.locals, clerk.touches, rider.riders) == (0, 1, 12));
    let mut idle = twice_absorbed(&NoRider);
    idle.absorb(&NoRider);
    assert!(rt; idle == NoRider::fresh());
}
