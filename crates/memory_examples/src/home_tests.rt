//! Each row of the table once, by calls, with a rider that leaves a trail. What is expected was worked
//! out by hand from the table of the protocol.
use crate::trail::Trail;
use image_mem::Image;
use msi_cache::{FromHome, Request, Response};
use msi_directory::{Home, HomeAnswer, HomeWords, Stage};
use rtr_types::{CORES_MAX, CoreSet};
use std::alloc::Global;
use std::process::Abort;
use std::test::Fail;

/// The block that each message is about.
const BLOCK: u32 = 2;

/// A message about the block, and the core that it comes from. Where it has words or a rider, each is the
/// number.
#[derive(Clone, Copy, Debug)]
enum Step {
    GetS(u8),
    GetM(u8),
    PutS(u8, u32),
    PutM(u8, u32),
    InvAck(u8, u32),
    OwnerData(u8, u32),
}

/// What a home takes from a core.
enum Message {
    Request(Request<Trail>),
    Response(Response<Trail>),
}

/// A core's PutM of the block.
fn put_m(mark: u32) -> Request<Trail> {
    Request::PutM {
        block: BLOCK,
        words: [mark; 4],
        rider: Trail { digits: mark },
    }
}

/// An owner's data of the block.
fn owner_data(mark: u32) -> Response<Trail> {
    let (words, rider) = ([mark; 4], Trail { digits: mark });
    Response::OwnerData {
        block: BLOCK,
        words,
        rider,
    }
}

/// The core that the step's message comes from, and the message.
fn message_of(step: Step) -> (u8, Message) {
    let block = BLOCK;
    match step {
        Step::GetS(from) => (from, Message::Request(Request::GetS { block })),
        Step::GetM(from) => (from, Message::Request(Request::GetM { block })),
        Step::PutS(from, mark) => {
            let rider = Trail { digits: mark };
            (from, Message::Request(Request::PutS { block, rider }))
        }
        Step::PutM(from, mark) => (from, Message::Request(put_m(mark))),
        Step::InvAck(from, mark) => {
            let rider = Trail { digits: mark };
            (from, Message::Response(Response::InvAck { block, rider }))
        }
        Step::OwnerData(from, mark) => (from, Message::Response(owner_data(mark))),
    }
}

fn take(rt: &impl Abort, home: &mut Home<Trail>, step: Step) -> HomeAnswer<Trail> {
    let (from, message) = message_of(step);
    assert!(rt; from < CORES_MAX);
    match message {
        Message::Request(request) => {
            assert!(rt; (request.block() as usize) < home.blocks());
            assert!(rt; home.has_room(request.block()) && home.expects_request(from, &request));
            home.on_request(from, request)
        }
        Message::Response(response) => {
            assert!(rt; (response.block() as usize) < home.blocks());
            assert!(rt; home.expects_response(from, &response));
            home.on_response(from, response)
        }
    }
}

/// Steps that a home takes first.
#[derive(Clone, Copy)]
struct After<'a> {
    path: &'a [Step],
}

impl<'a> After<'a> {
    /// After these steps the step has to be answered so, and to leave block 2 in this stage, with this word and this
    /// trail.
    fn row(
        self,
        rt: &impl Abort,
        alloc: Global,
        step: Step,
        answer: HomeAnswer<Trail>,
        left: (Stage, u32, u32),
    ) -> Result<(), Fail> {
        let image = Image::flat(Vec::new(alloc), 16)?;
        let mut home = Home::new(alloc, &image)?;
        assert!(rt; home.blocks() == 4);
        home.make_room(2)?;
        for before in self.path {
            take(rt, &mut home, *before);
        }
        assert!(rt; take(rt, &mut home, step) == answer, "{step:?}");
        assert!(rt; home.blocks() == 4);
        let now = (home.stage(2), home.word(8), home.rider(2).digits);
        assert!(rt; now == left, "{step:?}");
        Ok(())
    }
}

/// The answer that sends one message.
fn sends(to: u8, message: FromHome<Trail>) -> HomeAnswer<Trail> {
    HomeAnswer {
        invalidate: CoreSet { bits: 0 },
        send: Some((to, message)),
    }
}

/// The answer that sends the block's data.
fn data(to: u8, word: u32, trail: u32) -> HomeAnswer<Trail> {
    let message = FromHome::BlockData {
        block: 2,
        words: [word; 4],
        rider: Trail { digits: trail },
    };
    sends(to, message)
}

/// The answer to a Put.
fn put_ack(to: u8) -> HomeAnswer<Trail> {
    sends(to, FromHome::PutAck { block: 2 })
}

/// The answer that sends Inv to the cores of these bits, and no other message.
fn invalidates(bits: u8) -> HomeAnswer<Trail> {
    HomeAnswer {
        invalidate: CoreSet { bits: bits.into() },
        send: None,
    }
}

/// The stage in which the cores of these bits share the block.
fn shared(bits: u8) -> Stage {
    Stage::Shared {
        by: CoreSet { bits: bits.into() },
    }
}

/// The stage in which core 0 has to let its shared copy go, for this core.
fn acks(requester: u8) -> Stage {
    Stage::Acks {
        of: CoreSet { bits: 1 },
        requester,
    }
}

/// The stage in which core 0 has to give its data, for core 1, which shares the block with it or owns it.
fn gives(share: bool) -> Stage {
    Stage::Data {
        of: 0,
        requester: 1,
        share,
    }
}

#[test]
fn takes_requests_for_an_unshared_block(rt: HostRuntime) -> Result<(), Fail> {
    let alloc = rt.alloc();
    let first = After { path: &[] };
    let unshared = Stage::Unshared;
    let owned = Stage::Owned { owner: 3 };
    first.row(&rt, alloc, Step::GetS(3), data(3, 0, 0), (shared(8), 0, 0))?;
    first.row(&rt, alloc, Step::GetM(3), data(3, 0, 0), (owned, 0, 0))?;
    first.row(&rt, alloc, Step::PutS(3, 5), put_ack(3), (unshared, 0, 0))?;
    first.row(&rt, alloc, Step::PutM(3, 5), put_ack(3), (unshared, 0, 0))
}

#[test]
fn takes_requests_for_a_shared_block(rt: HostRuntime) -> Result<(), Fail> {
    let alloc = rt.alloc();
    let path = [Step::GetS(0), Step::GetS(1)];
    let alone = After { path: &path[..1] };
    let two = After { path: &path };
    let unshared = Stage::Unshared;
    let owned = Stage::Owned { owner: 0 };
    alone.row(&rt, alloc, Step::GetS(1), data(1, 0, 0), (shared(3), 0, 0))?;
    alone.row(&rt, alloc, Step::GetM(0), data(0, 0, 0), (owned, 0, 0))?;
    two.row(&rt, alloc, Step::GetM(1), invalidates(1), (acks(1), 0, 0))?;
    two.row(&rt, alloc, Step::PutS(1, 5), put_ack(1), (shared(1), 0, 5))?;
    alone.row(&rt, alloc, Step::PutS(0, 5), put_ack(0), (unshared, 0, 5))?;
    two.row(&rt, alloc, Step::PutM(1, 5), put_ack(1), (shared(1), 0, 0))?;
    alone.row(&rt, alloc, Step::PutS(2, 5), put_ack(2), (shared(1), 0, 0))?;
    alone.row(&rt, alloc, Step::PutM(2, 5), put_ack(2), (shared(1), 0, 0))
}

#[test]
fn takes_requests_for_an_owned_block(rt: HostRuntime) -> Result<(), Fail> {
    let alloc = rt.alloc();
    let path = [Step::GetM(0)];
    let after = After { path: &path };
    let unshared = Stage::Unshared;
    let owned = Stage::Owned { owner: 0 };
    let forward = sends(0, FromHome::FwdGetS { block: 2 });
    after.row(&rt, alloc, Step::GetS(1), forward, (gives(true), 0, 0))?;
    let forward = sends(0, FromHome::FwdGetM { block: 2 });
    after.row(&rt, alloc, Step::GetM(1), forward, (gives(false), 0, 0))?;
    after.row(&rt, alloc, Step::PutM(0, 5), put_ack(0), (unshared, 5, 5))?;
    after.row(&rt, alloc, Step::PutM(1, 5), put_ack(1), (owned, 0, 0))?;
    after.row(&rt, alloc, Step::PutS(1, 5), put_ack(1), (owned, 0, 0))
}

// The home gives its rider to an owner, and keeps it where it sends it to a core that only reads.
#[test]
fn takes_responses(rt: HostRuntime) -> Result<(), Fail> {
    let alloc = rt.alloc();
    let path = [Step::GetS(0), Step::GetS(1), Step::GetM(2)];
    let after = After { path: &path };
    after.row(
        &rt,
        alloc,
        Step::InvAck(1, 5),
        invalidates(0),
        (acks(2), 0, 5),
    )?;
    let owned = Stage::Owned { owner: 2 };
    let path = [
        Step::GetS(0),
        Step::GetS(1),
        Step::GetM(2),
        Step::InvAck(1, 5),
    ];
    let after = After { path: &path };
    let acked = Step::InvAck(0, 6);
    after.row(&rt, alloc, acked, data(2, 0, 56), (owned, 0, 0))?;
    let path = [Step::GetM(0), Step::GetS(2)];
    let after = After { path: &path };
    let given = Step::OwnerData(0, 5);
    after.row(&rt, alloc, given, data(2, 5, 5), (shared(5), 5, 5))?;
    let path = [Step::GetM(0), Step::GetM(2)];
    let after = After { path: &path };
    after.row(&rt, alloc, given, data(2, 5, 5), (owned, 5, 0))
}

/// Room is made for block 2, and cores 0 and 1 come to share it.
fn shared_by_two(rt: &impl Abort, home: &mut Home<Trail>) -> Result<(), Fail> {
    assert!(rt; home.blocks() == 4);
    assert!(rt; (home.touched(), home.has_room(2)) == (0, false));
    home.make_room(2)?;
    assert!(rt; (home.touched(), home.has_room(2)) == (1, true));
    assert!(rt; take(rt, home, Step::GetS(0)) == data(0, 0, 0));
    assert!(rt; home.blocks() == 4);
    home.make_room(2)?;
    assert!(rt; take(rt, home, Step::GetS(1)) == data(1, 0, 0));
    Ok(())
}

/// Core 1 asks to own it, and the home waits.
fn waits_for_core_0(rt: &impl Abort, home: &mut Home<Trail>) -> Result<(), Fail> {
    assert!(rt; home.blocks() == 4);
    home.make_room(2)?;
    assert!(rt; take(rt, home, Step::GetM(1)) == invalidates(1));
    assert!(rt; home.blocks() == 4);
    assert!(rt; home.can_take(&Request::GetS { block: 2 }) == false);
    assert!(rt; home.is_free(2) == false);
    assert!(rt; home.owner(2) == None);
    Ok(())
}

/// Core 0 has let it go.
fn owned_by_core_1(rt: &impl Abort, home: &mut Home<Trail>) {
    assert!(rt; take(rt, home, Step::InvAck(0, 7)) == data(1, 0, 7));
    assert!(rt; home.blocks() == 4);
    assert!(rt; (home.owner(2), home.words(2).owner) == (Some(1), Some(1)));
    assert!(rt; (home.is_free(2), home.touched()) == (true, 1));
    assert!(rt; (home.rider(2).digits, home.rider(3).digits) == (0, 0));
}

#[test]
fn hands_a_shared_block_to_one_owner(rt: HostRuntime) -> Result<(), Fail> {
    let image = Image::flat(Vec::new(rt.alloc()), 16)?;
    let mut home = Home::new(rt.alloc(), &image)?;
    shared_by_two(&rt, &mut home)?;
    waits_for_core_0(&rt, &mut home)?;
    owned_by_core_1(&rt, &mut home);
    Ok(())
}

/// The home of two blocks keeps so many entries, and has the image's words, the last three of which are none.
fn has_opening_words(rt: &impl Abort, home: &Home<Trail>, touched: u32) {
    assert!(rt; home.blocks() == 2);
    assert!(rt; home.touched() == touched);
    let owner = None;
    let words = [1, 2, 259, 0];
    assert!(rt; home.words(0) == HomeWords { words, owner });
    let words = [0; 4];
    assert!(rt; home.words(1) == HomeWords { words, owner });
    assert!(rt; (home.word(1), home.word(2), home.word(7)) == (2, 259, 0));
}

#[test]
fn reads_the_opening_words(rt: HostRuntime) -> Result<(), Fail> {
    let bytes = vec![in rt.alloc(); 1, 0, 0, 0, 2, 0, 0, 0, 3, 1]?;
    let image = Image::flat(bytes, 5)?;
    let mut home = Home::<Trail>::new(rt.alloc(), &image)?;
    has_opening_words(&rt, &home, 0);
    assert!(rt; home.blocks() == 2);
    home.make_room(0)?;
    has_opening_words(&rt, &home, 1);
    Ok(())
}

// Core 0 gives a copy back that it had written.
#[test]
fn has_the_words_of_a_put(rt: HostRuntime) -> Result<(), Fail> {
    let image = Image::flat(Vec::new(rt.alloc()), 16)?;
    let mut home = Home::new(rt.alloc(), &image)?;
    assert!(rt; home.blocks() == 4);
    home.make_room(2)?;
    take(&rt, &mut home, Step::GetM(0));
    take(&rt, &mut home, Step::PutM(0, 5));
    assert!(rt; home.blocks() == 4);
    assert!(rt; (home.word(7), home.word(8), home.word(11)) == (0, 5, 5));
    assert!(rt; home.owner(2) == None);
    Ok(())
}
