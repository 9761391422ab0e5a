//! Links of capacity 1 and 2.
use link_order::{Full, Link};
use std::process::Abort;
use std::test::Fail;

#[test]
fn hands_back_what_it_has_no_room_for(rt: HostRuntime) -> Result<(), Fail> {
    let mut link = Link::new(rt.alloc(), 1)?;
    assert!(rt; link.pop().is_none());
    assert!(rt; link.push(5u32).is_ok());
    let handed_back = match link.push(6) {
        Ok(()) => None,
        Err(Full(item)) => Some(item),
    };
    assert!(rt; handed_back == Some(6));
    holds_five(&rt, &mut link);
    Ok(())
}

/// The link has 5 alone, and no other room.
fn holds_five(rt: &impl Abort, link: &mut Link<u32>) {
    assert!(rt; link.head().copied() == Some(5));
    assert!(rt; (link.len(), link.capacity(), link.is_empty()) == (1, 1, false));
    assert!(rt; link.pop() == Some(5));
    assert!(rt; (link.head().copied(), link.is_empty()) == (None, true));
}

#[test]
fn goes_round(rt: HostRuntime) -> Result<(), Fail> {
    let mut link = Link::<u32>::new(rt.alloc(), 2)?;
    link.drop_head();
    assert!(rt; (link.len(), link.capacity()) == (0, 2));
    *link.push_place() = 5;
    assert!(rt; link.push(6).is_ok());
    assert!(rt; link.push(7).is_err());
    link.drop_head();
    assert!(rt; link.head().copied() == Some(6));
    *link.push_place() = 7;
    assert!(rt; link.len() == 2);
    Ok(())
}

#[test]
fn comes_round_by_places(rt: HostRuntime) -> Result<(), Fail> {
    let mut link = Link::<u32>::new(rt.alloc(), 2)?;
    *link.push_place() = 5;
    *link.push_place() = 6;
    assert!(rt; link.pop() == Some(5));
    *link.push_place() = 7;
    *link.head_place() = 8;
    assert!(rt; link.pop() == Some(8));
    assert!(rt; link.pop() == Some(7));
    assert!(rt; link.pop() == None);
    Ok(())
}
