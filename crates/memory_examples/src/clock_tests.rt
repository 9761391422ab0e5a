//! Clocks that are merged.
use clock_core::Clock;
use rtr_types::Instr;

#[test]
fn merged_clock_knows_what_either_knew(rt: HostRuntime) {
    let mut first = Clock::zero();
    first.set(0, 3);
    first.set(1, 1);
    let mut second = Clock::zero();
    second.set(0, 2);
    second.set(1, 5);
    let both = first.merge(second);
    assert!(rt; both.get(0) == 3);
    assert!(rt; both.get(1) == 5);
    assert!(rt; both.get(2) == 0);
    assert!(rt; both.covers(Instr { core: 1, count: 5 }));
    assert!(rt; !both.covers(Instr { core: 0, count: 4 }));
    assert_ne!(rt; both, first);
    first.join(&second);
    assert!(rt; first == both);
    assert!(rt; both.as_slice().get(1).copied() == Some(5));
}
