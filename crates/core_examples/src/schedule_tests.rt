//! Choice bytes, and the words after them.
use schedule_pick::Schedule;
use std::test::Fail;

// The words were worked out from the generator's definition, by a program that gives the first words of
// PCG's published example for its seed and stream.
#[test]
fn bytes_come_first_and_then_words(rt: HostRuntime) -> Result<(), Fail> {
    let mut schedule = Schedule::new(vec![in rt.alloc(); 0, 255]?, 42);
    for choice in [0, 255, 0x21b7_56ee, 0xc15e_f750, 0x9548_a9bd] {
        assert!(rt; schedule.next() == choice);
    }
    Ok(())
}

#[test]
fn a_seed_alone_gives_words(rt: HostRuntime) {
    let mut schedule = Schedule::new(Vec::new(rt.alloc()), 7);
    for choice in [0xf239_3151, 0x7fbb_cd3a, 0xa353_7acf] {
        assert!(rt; schedule.next() == choice);
    }
}
