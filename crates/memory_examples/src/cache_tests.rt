//! Each row of the table once, by calls, with a rider that leaves a trail. What is expected was worked
//! out by hand from the table of the protocol.
use crate::trail::Trail;
use access_times::Rider;
use msi_cache::{
    Cache, FromHome, FromHomeSlot, Request, RequestSlot, Response, ResponseSlot, State,
};
use rtr_types::Kind;
use std::alloc::Global;
use std::process::Abort;
use std::test::Fail;

/// What happens to the line of block 4, with block 20 as the other block that goes there. `Data` has
/// the number as each of its words and as its rider.
#[derive(Clone, Copy)]
enum Step {
    Load(u32),
    Store(u32),
    Amo(u32),
    Data(u32),
    Ack,
    Inv,
    FwdGetS,
    FwdGetM,
}

/// What a step answers.
#[derive(Drop, PartialEq, Eq)]
enum Said {
    Asked(Request<Trail>),
    Replied(Option<Response<Trail>>),
}

/// A message about the block.
fn message(step: Step, block: u32) -> Option<FromHome<Trail>> {
    match step {
        Step::Load(_) | Step::Store(_) | Step::Amo(_) => None,
        Step::Data(mark) => Some(FromHome::BlockData {
            block,
            words: [mark; 4],
            rider: Trail { digits: mark },
        }),
        Step::Ack => Some(FromHome::PutAck { block }),
        Step::Inv => Some(FromHome::Inv { block }),
        Step::FwdGetS => Some(FromHome::FwdGetS { block }),
        Step::FwdGetM => Some(FromHome::FwdGetM { block }),
    }
}

fn ask(rt: &impl Abort, cache: &mut Cache<Trail>, block: u32, kind: Kind) -> Said {
    assert!(rt; !cache.waits());
    assert!(rt; !cache.allows(block, kind));
    Said::Asked(cache.want(block, kind))
}

fn take(rt: &impl Abort, cache: &mut Cache<Trail>, step: Step) -> Said {
    match step {
        Step::Load(block) => ask(rt, cache, block, Kind::Load),
        Step::Store(block) => ask(rt, cache, block, Kind::Store),
        Step::Amo(block) => ask(rt, cache, block, Kind::Amo),
        _ => {
            let heard = message(step, 4).expect(rt, "a message");
            assert!(rt; cache.expects(&heard));
            Said::Replied(cache.on_home(heard))
        }
    }
}

/// Takes the steps of the path, and then the step, which has to answer so and to leave the line of
/// block 4 in this state, with this word and this trail.
fn row(
    rt: &impl Abort,
    alloc: Global,
    path: &[Step],
    (step, what): (Step, &str),
    said: Said,
    left: (State, u32, u32),
) -> Result<(), Fail> {
    let mut cache = Cache::new(alloc)?;
    for before in path {
        take(rt, &mut cache, *before);
    }
    assert!(rt; take(rt, &mut cache, step) == said, "{what}");
    let line = cache.line(4);
    assert!(rt;
        (line.state, line.words[0], line.rider.get().digits) == left,
        "{what}"
    );
    Ok(())
}

fn asked(request: Request<Trail>) -> Said {
    Said::Asked(request)
}

fn silent() -> Said {
    Said::Replied(None)
}

fn inv_ack(trail: u32) -> Said {
    Said::Replied(Some(Response::InvAck {
        block: 4,
        rider: Trail { digits: trail },
    }))
}

fn owner_data(word: u32, trail: u32) -> Said {
    Said::Replied(Some(Response::OwnerData {
        block: 4,
        words: [word; 4],
        rider: Trail { digits: trail },
    }))
}

/// A copy that may only be read.
const SHARED: [Step; 2] = [Step::Load(4), Step::Data(1)];

/// That copy, whose core wants to write.
const UPGRADED: [Step; 3] = [Step::Load(4), Step::Data(1), Step::Store(4)];

/// That copy, which goes back.
const SHARED_PUT: [Step; 3] = [Step::Load(4), Step::Data(1), Step::Load(20)];

/// A copy that may be written.
const OWNED: [Step; 2] = [Step::Store(4), Step::Data(1)];

/// That copy, which goes back.
const OWNED_PUT: [Step; 3] = [Step::Store(4), Step::Data(1), Step::Load(20)];

/// Rows of the table: the path, the step, what it answers, and the line's state, word and trail.
macro_rules! rows {
    ($rt:ident: $($path:expr, $step:expr => $said:expr, $state:ident $word:literal $trail:literal;)+) => {
        $(row(&$rt, $rt.alloc(), &$path, ($step, stringify!($step)), $said, (State::$state, $word, $trail))?;)+
    };
}

#[test]
fn asks_home_for_what_an_access_needs(rt: HostRuntime) -> Result<(), Fail> {
    let rider = Trail { digits: 1 };
    let words = [1; 4];
    rows! { rt:
        [], Step::Load(4) => asked(Request::GetS { block: 4 }), IsD 0 0;
        SHARED, Step::Store(20) => asked(Request::PutS { block: 4, rider }), SiA 1 1;
        OWNED, Step::Load(20) => asked(Request::PutM { block: 4, words, rider }), MiA 1 1;
    }
    Ok(())
}

// Of the kinds of access only the load asks for less than the right to write.
#[test]
fn asks_to_own_what_it_is_to_write(rt: HostRuntime) -> Result<(), Fail> {
    for step in [Step::Store(4), Step::Amo(4)] {
        rows! { rt:
            [], step => asked(Request::GetM { block: 4 }), ImD 0 0;
            SHARED, step => asked(Request::GetM { block: 4 }), SmD 1 1;
        }
    }
    Ok(())
}

#[test]
fn takes_data_and_acknowledgements(rt: HostRuntime) -> Result<(), Fail> {
    rows! { rt:
        [Step::Load(4)], Step::Data(2) => silent(), S 2 2;
        [Step::Store(4)], Step::Data(2) => silent(), M 2 2;
        UPGRADED, Step::Data(2) => silent(), M 2 21;
        SHARED_PUT, Step::Ack => silent(), I 1 1;
        OWNED_PUT, Step::Ack => silent(), I 1 1;
        [Step::Load(4), Step::Data(1), Step::Load(20), Step::Inv], Step::Ack => silent(), I 1 0;
    }
    Ok(())
}

// A copy that ends gives its rider away, and a copy that stays keeps it.
#[test]
fn gives_copies_up(rt: HostRuntime) -> Result<(), Fail> {
    rows! { rt:
        SHARED, Step::Inv => inv_ack(1), I 1 0;
        UPGRADED, Step::Inv => inv_ack(1), ImD 1 0;
        SHARED_PUT, Step::Inv => inv_ack(1), IiA 1 0;
        OWNED, Step::FwdGetS => owner_data(1, 1), S 1 1;
        OWNED_PUT, Step::FwdGetS => owner_data(1, 1), SiA 1 1;
        OWNED, Step::FwdGetM => owner_data(1, 1), I 1 0;
        OWNED_PUT, Step::FwdGetM => owner_data(1, 1), IiA 1 0;
    }
    Ok(())
}

#[test]
fn evicts_a_shared_block_for_another(rt: HostRuntime) -> Result<(), Fail> {
    let mut cache = Cache::<Trail>::new(rt.alloc())?;
    let get_s = asked(Request::GetS { block: 4 });
    assert!(rt; take(&rt, &mut cache, Step::Load(4)) == get_s);
    assert!(rt; take(&rt, &mut cache, Step::Data(7)) == silent());
    let put_s = asked(Request::PutS {
        block: 4,
        rider: Trail { digits: 7 },
    });
    assert!(rt; take(&rt, &mut cache, Step::Load(20)) == put_s);
    assert!(rt; take(&rt, &mut cache, Step::Inv) == inv_ack(7));
    assert!(rt; take(&rt, &mut cache, Step::Ack) == silent());
    let get_s = asked(Request::GetS { block: 20 });
    assert!(rt; take(&rt, &mut cache, Step::Load(20)) == get_s);
    Ok(())
}

#[test]
fn writes_a_word_and_lends_the_rider(rt: HostRuntime) -> Result<(), Fail> {
    let mut cache = Cache::<Trail>::new(rt.alloc())?;
    take(&rt, &mut cache, Step::Store(4));
    take(&rt, &mut cache, Step::Data(7));
    assert!(rt; cache.can_write(4) && !cache.can_write(20) && !cache.can_read(20));
    cache.put_word(4, 2, 9);
    assert!(rt; cache.can_read(4));
    assert!(rt; (cache.word(4, 1), cache.word(4, 2)) == (7, 9));
    cache.rider(4).absorb(&Trail { digits: 3 });
    let given = Said::Replied(Some(Response::OwnerData {
        block: 4,
        words: [7, 7, 9, 7],
        rider: Trail { digits: 73 },
    }));
    assert!(rt; take(&rt, &mut cache, Step::FwdGetM) == given);
    assert!(rt; !cache.can_read(4));
    Ok(())
}

#[test]
fn a_request_lies_in_its_place(rt: HostRuntime) -> Result<(), Fail> {
    let put = Request::PutM {
        block: 4,
        words: [1, 2, 3, 4],
        rider: Trail { digits: 7 },
    };
    let mut request = RequestSlot::<Trail>::blank(rt.alloc())?;
    request.put(put.lent());
    assert!(rt; (request.block(), request.open().owned()) == (4, put));
    request.put(Request::GetS { block: 5 });
    assert!(rt; request.open().owned() == Request::GetS { block: 5 });
    Ok(())
}

#[test]
fn a_response_lies_in_its_place(rt: HostRuntime) -> Result<(), Fail> {
    let rider = Trail { digits: 7 };
    let ack = Response::InvAck { block: 4, rider };
    let mut response = ResponseSlot::<Trail>::blank(rt.alloc())?;
    response.put(ack.lent());
    assert!(rt; (response.block(), response.open().owned()) == (4, ack));
    Ok(())
}

/// A message with block 4's data.
fn block_4() -> FromHome<Trail> {
    FromHome::BlockData {
        block: 4,
        words: [1, 2, 3, 4],
        rider: Trail { digits: 7 },
    }
}

#[test]
fn a_message_lies_in_its_place(rt: HostRuntime) -> Result<(), Fail> {
    let data = block_4();
    let mut message = FromHomeSlot::<Trail>::blank(rt.alloc())?;
    message.put(data.lent());
    assert!(rt; (message.block(), message.open()) == (4, data.lent()));
    Ok(())
}

/// The cache, which waits for block 4, takes its data where they lie.
fn takes_data(rt: &impl Abort, cache: &mut Cache<Trail>, message: &mut FromHomeSlot<Trail>) {
    let data = block_4();
    message.put(data.lent());
    assert!(rt; cache.expects(&data));
    cache.take(message);
    assert!(rt; cache.can_read(4));
    assert!(rt; (cache.word(4, 1), cache.rider(4).digits) == (2, 7));
}

#[test]
fn a_message_is_taken_where_it_lies(rt: HostRuntime) -> Result<(), Fail> {
    let mut message = FromHomeSlot::<Trail>::blank(rt.alloc())?;
    let mut cache = Cache::<Trail>::new(rt.alloc())?;
    take(&rt, &mut cache, Step::Load(4));
    takes_data(&rt, &mut cache, &mut message);
    Ok(())
}

/// The cache, which may read block 4, hears that its copy is no longer valid, and answers there.
fn answers_there(rt: &impl Abort, cache: &mut Cache<Trail>, reply: &mut ResponseSlot<Trail>) {
    let inv = FromHome::<Trail>::Inv { block: 4 };
    assert!(rt; cache.expects(&inv));
    assert!(rt; cache.answer(inv.lent()).is_some());
    cache.respond(inv.lent(), reply);
    let line = cache.line(4);
    assert!(rt; (line.state, line.rider.get().digits) == (State::I, 0));
}

#[test]
fn a_copy_that_ends_gives_its_rider_to_the_answer(rt: HostRuntime) -> Result<(), Fail> {
    let mut message = FromHomeSlot::<Trail>::blank(rt.alloc())?;
    let mut reply = ResponseSlot::<Trail>::blank(rt.alloc())?;
    let mut cache = Cache::<Trail>::new(rt.alloc())?;
    take(&rt, &mut cache, Step::Load(4));
    takes_data(&rt, &mut cache, &mut message);
    answers_there(&rt, &mut cache, &mut reply);
    let rider = Trail { digits: 7 };
    assert!(rt; reply.open().owned() == Response::InvAck { block: 4, rider });
    Ok(())
}
