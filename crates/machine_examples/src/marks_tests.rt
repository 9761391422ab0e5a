//! Marks of a few moves: how many there are, and which has which number.
use move_marks::{MarkedMove, MoveKind, MoveMarks};
use rtr_types::CoreSet;
use std::process::Abort;

/// The marks of four moves: cores 1 and 15 may move, core 0 has a response, core 1 has a message.
fn four() -> MoveMarks {
    let mut marks = MoveMarks::none();
    marks.mark_all(MoveKind::FromHome, CoreSet::empty().with(1));
    marks.set(MoveKind::Own, 15, true);
    marks.set(MoveKind::Response, 0, true);
    marks.set(MoveKind::Own, 1, true);
    marks.mark_all(MoveKind::Request, CoreSet::empty().with(3).with(4));
    marks.clear_all(MoveKind::Request, CoreSet::empty().with(4).with(3));
    marks
}

fn expect(rt: &impl Abort, number: u32, kind: MoveKind, core: u8) {
    let marks = four();
    let many = marks.count();
    assert!(rt; number < many);
    let found = marks.pick(number);
    assert!(rt; found == MarkedMove { kind, core });
}

#[test]
fn marked_moves_have_numbers(rt: HostRuntime) {
    assert!(rt; four().count() == 4);
    expect(&rt, 0, MoveKind::Own, 1);
    expect(&rt, 1, MoveKind::Own, 15);
    expect(&rt, 2, MoveKind::Response, 0);
    expect(&rt, 3, MoveKind::FromHome, 1);
}

#[test]
fn where_nothing_is_marked_there_is_none(rt: HostRuntime) {
    assert!(rt; MoveMarks::none().is_empty());
    assert!(rt; !four().is_empty());
}
