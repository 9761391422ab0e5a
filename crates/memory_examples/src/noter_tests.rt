//! A clerk that notes with clocks, met through its bound alone.
ghost use Rattle.std.specs.Prelude.{◌≡◌, ◌≢◌, ℕ};
ghost use Rattle.access_times.specs.Times.{times_noted};

use crate::accesses::access;
use access_times::{Carry, NoCarry, Rider, Times, TimesClerk};
use clock_core::Clock;
use rtr_types::{Access, Instr, Kind};
use std::test::Fail;
use test_clerks::Noter;

/// Tells of one retirement with an access, as a machine with times does.
fn tell<K: Carry, C: TimesClerk<K>>(clerk: &mut C, rider: &mut Times, carry: &K, access: Access)
    requires { C.accepts clerk.old access.at }
    ensures rider { rider.new ≡ times_noted access rider.old (C.clock clerk.new access.at.core) }
    ensures others { (core : ℕ) → core ≢ access.at.core → C.clock clerk.new core ≡ C.clock clerk.old core }
{
    clerk.touched(access, rider, carry);
}

#[test]
fn a_clerk_notes_through_its_bound(rt: HostRuntime) {
    let access = Access {
        after: 9,
        ..access!(1: 7 Store 6)
    };
    let mut clerk = Noter::new();
    let mut rider = Times::fresh();
    tell(&mut clerk, &mut rider, &NoCarry, access);
    let mut clock = Clock::zero();
    clock.set(1, 7);
    assert!(rt; rider.write(2) == Some((access.at, clock)));
}
