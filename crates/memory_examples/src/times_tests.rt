//! Times of a block that is written and read, copied and absorbed.
ghost use Rattle.std.specs.Prelude.{◌<◌};
ghost use Rattle.rtr_types.specs.declared.TheConstants.{CORES_MAX};

use access_times::{Rider, Times};
use clock_core::Clock;
use rtr_types::Instr;

/// The clock that knows of the core's first instructions alone.
fn only(core: u8, count: u32) -> Clock
    requires { core < CORES_MAX }
{
    let mut clock = Clock::zero();
    clock.set(core, count);
    clock
}

#[test]
fn a_write_forgets_reads_and_absorbing_keeps_the_newer(rt: HostRuntime) {
    let first = Instr { core: 2, count: 4 };
    let mut home = Times::fresh();
    assert!(rt; home.write(1).is_none());
    home.on_load(1, Instr { core: 0, count: 1 }, only(0, 1));
    home.on_store(1, first, only(2, 4));
    assert!(rt; home.write(1) == Some((first, only(2, 4))));
    assert!(rt; home.read_by(1, 0).is_none());
    let mut copy = Times::fresh();
    copy.copy_from(&home);
    home.on_load(1, Instr { core: 0, count: 2 }, only(0, 2));
    copy.on_load(1, Instr { core: 0, count: 3 }, only(0, 3));
    copy.on_load(1, Instr { core: 1, count: 5 }, only(1, 5));
    home.absorb(&copy);
    assert!(rt; home.read_by(1, 0) == Some((3, only(0, 3))));
    assert!(rt; home.read_by(1, 1) == Some((5, only(1, 5))));
    assert!(rt; home.read_by(0, 1).is_none());
    home.on_store(1, Instr { core: 1, count: 6 }, only(1, 6));
    home.absorb(&copy);
    assert!(rt; home.read_by(1, 0).is_none());
}

#[test]
fn a_copy_forgets_what_it_was_and_a_renewed_rider_keeps_newer_reads(rt: HostRuntime) {
    let mut home = Times::fresh();
    home.on_store(2, Instr { core: 1, count: 3 }, only(1, 3));
    home.on_load(2, Instr { core: 0, count: 4 }, only(0, 4));
    let mut copy = Times::fresh();
    copy.on_load(0, Instr { core: 7, count: 1 }, only(7, 1));
    copy.copy_from(&home);
    assert!(rt; copy.read_by(0, 7).is_none());
    assert!(rt; copy.write(2) == home.write(2));
    assert!(rt; copy.read_by(2, 0) == Some((4, only(0, 4))));
    copy.on_load(2, Instr { core: 0, count: 9 }, only(0, 9));
    home.on_load(2, Instr { core: 2, count: 5 }, only(2, 5));
    copy.renew(&home);
    assert!(rt; copy.read_by(2, 0) == Some((9, only(0, 9))));
    assert!(rt; copy.read_by(2, 2) == Some((5, only(2, 5))));
}
