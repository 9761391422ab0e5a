//! What is put into a ring leaves it in order.
use flat_state::{Message, MessageRing, Replied, Reply, ReplyRing, Told};

#[test]
fn messages_leave_in_order(rt: HostRuntime) {
    let mut ring = MessageRing::new();
    ring.push(Message {
        place: 3,
        told: Told::Data,
    });
    ring.push(Message {
        place: 5,
        told: Told::Inv,
    });
    let first = ring.take();
    let second = ring.take();
    assert!(rt; (first.place, second.place, ring.is_empty()) == (3, 5, true));
}

#[test]
fn responses_leave_in_order(rt: HostRuntime) {
    let mut ring = ReplyRing::new();
    ring.push(Reply {
        place: 3,
        replied: Replied::InvAck,
    });
    ring.push(Reply {
        place: 5,
        replied: Replied::OwnerData,
    });
    let first = ring.take();
    let second = ring.take();
    assert!(rt; (first.place, second.place, ring.is_empty()) == (3, 5, true));
}
