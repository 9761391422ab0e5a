//! Lists that take their room beforehand: items stay in their list, and loads with their core.
use load_lists::LoadLists;
use roomy_lists::RoomyLists;
use rtr_types::Items;
use rv_core::LoadNote;
use std::fmt::Debug;
use std::process::Abort;
use std::test::Fail;

// An item goes into the second of two lists, which then has so many.
fn push(rt: &impl Abort, all: &mut RoomyLists<u32>, item: u32, len: usize) -> Result<(), Fail> {
    all.make_room()?;
    assert!(rt; all.count() == 2);
    assert!(rt; all.has_room() && all.has_room_at(1));
    all.push(1, item);
    assert!(rt; all.count() == 2);
    assert!(rt; (all.list(0).len(), all.list(1).len()) == (0, len));
    Ok(())
}

// Of two lists the first is empty, and the second has these items.
fn have<T: Copy + Debug + PartialEq>(rt: &impl Abort, lists: &[Items<T>], items: &[T]) {
    assert!(rt; lists.len() == 2);
    assert!(rt; lists[0].len() == 0);
    assert!(rt; lists[1].as_slice() == items);
}

#[test]
fn items_stay_in_their_lists(rt: HostRuntime) -> Result<(), Fail> {
    let mut all = RoomyLists::<u32>::new(rt.alloc(), 2)?;
    assert!(rt; !all.has_room());
    for (item, len) in [(5, 1), (6, 2), (7, 3)] {
        push(&rt, &mut all, item, len)?;
    }
    assert!(rt; all.count() == 2);
    assert!(rt; all.list(1).len() == 3);
    all.set_last(1, 8);
    let items = all.into_items();
    have(&rt, items.as_slice(), &[5, 6, 8]);
    Ok(())
}

fn note(count: u32, word: u32, value: u32) -> LoadNote {
    LoadNote { count, word, value }
}

#[test]
fn loads_stay_with_their_core(rt: HostRuntime) -> Result<(), Fail> {
    let mut loads = LoadLists::new(rt.alloc(), 2)?;
    let first = note(3, 16, 7);
    let second = note(4, 17, 8);
    loads.make_room()?;
    loads.note(1, first);
    loads.make_room()?;
    assert!(rt; loads.has_room());
    loads.note(1, second);
    let items = loads.into_items();
    have(&rt, items.as_slice(), &[first, second]);
    Ok(())
}
