//! Sessions on a recording of two cores.
use crate::handed_over::{handed_over, one_break};
use crate::rows::{first_wrong, plays};
use crate::session_rows::{BREAK, BREAKS, STEPS, STILL, WATCHES};
use crate::turn_rows::{
    BACK_ALONE, LEADS, ONE_CORE, OTHERS_BACK, RANGE_STOPS, RANGES, RUNS_AGAIN, TOLD, UNASKED,
    UNHEARD,
};
use gdb_server::{Next, Partner};
use gdb_session::Session;
use std::alloc::{AllocError, Global};
use std::process::Abort;
use std::test::Fail;

/// The first packet whose answer isn't that of the text, from the beginning on.
fn first_wrong_of<'a>(alloc: Global, text: &'a str) -> Result<Option<&'a str>, Fail> {
    let audited = handed_over(alloc)?;
    let mut session = Session::begin(alloc, &audited)?;
    Ok(first_wrong(alloc, &mut session, text)?)
}

#[test]
fn each_session_is_answered_so(rt: HostRuntime) -> Result<(), Fail> {
    for text in [STEPS, BREAKS, WATCHES, STILL] {
        assert_eq!(rt; first_wrong_of(rt.alloc(), text)?, None);
    }
    Ok(())
}

// Some cores go on alone, and back; a step back stops for the others; and one core leads the others on or back.
#[test]
fn each_session_of_some_cores_is_answered_so(rt: HostRuntime) -> Result<(), Fail> {
    for text in [
        ONE_CORE,
        UNHEARD,
        TOLD,
        BACK_ALONE,
        UNASKED,
        OTHERS_BACK,
        LEADS,
    ] {
        assert_eq!(rt; first_wrong_of(rt.alloc(), text)?, None);
    }
    Ok(())
}

// A core steps on in a range of addresses; and the program runs again.
#[test]
fn each_session_of_ranges_and_runs_is_answered_so(rt: HostRuntime) -> Result<(), Fail> {
    for text in [RANGES, RANGE_STOPS, RUNS_AGAIN] {
        assert_eq!(rt; first_wrong_of(rt.alloc(), text)?, None);
    }
    Ok(())
}

/// What is to be done behind the packet, and how many payloads it is answered.
fn done(alloc: Global, session: &mut Session, packet: &str) -> Result<(Next, usize), AllocError> {
    let answer = session.answer(alloc, packet.as_bytes())?;
    Ok((answer.next, answer.payloads.len()))
}

#[test]
fn a_session_ends_where_it_is_asked_to(rt: HostRuntime) -> Result<(), Fail> {
    let audited = handed_over(rt.alloc())?;
    let mut session = Session::begin(rt.alloc(), &audited)?;
    for (packet, wanted) in [
        ("QStartNoAckMode", (Next::StopAcks, 1)),
        ("vKill;1", (Next::End, 1)),
        ("!", (Next::Listen, 1)),
        ("vKill;1", (Next::Listen, 1)),
        ("R00", (Next::Listen, 0)),
        ("D;1", (Next::End, 1)),
        ("k", (Next::End, 0)),
    ] {
        assert!(rt;
            done(rt.alloc(), &mut session, packet)? == wanted,
            "{packet}"
        );
    }
    Ok(())
}

/// The session goes on to its end and back, and is interrupted before each.
fn is_interrupted(rt: &impl Abort, alloc: Global, session: &mut Session) -> Result<(), AllocError> {
    session.interrupt();
    assert!(rt; plays(alloc, session, "vCont;c:2;c", "T02thread:2;")?);
    assert!(rt; plays(alloc, session, "vCont;c", "T05thread:2;replaylog:end;")?);
    session.interrupt();
    assert!(rt; plays(alloc, session, "qXfer:threads:read::0,5", "m<?xml")?);
    assert!(rt; plays(alloc, session, "bc", "T05thread:2;replaylog:begin;")?);
    Ok(())
}

// The interrupt is told once, and not where the threads were asked for before.
#[test]
fn an_interrupt_leaves_out_one_move(rt: HostRuntime) -> Result<(), Fail> {
    let audited = handed_over(rt.alloc())?;
    let mut session = Session::begin(rt.alloc(), &audited)?;
    Ok(is_interrupted(&rt, rt.alloc(), &mut session)?)
}

/// Sets points of a kind at the first `count` addresses, and answers how many of them were taken.
fn taken(alloc: Global, session: &mut Session, kind: u32, count: u32) -> Result<u32, AllocError> {
    let mut all = 0;
    for at in 0..count {
        let packet = format!(in alloc; "Z{kind},{at:x},4")?;
        let answer = session.answer(alloc, packet.as_bytes())?;
        match answer.payloads.as_slice() {
            [one] if one.as_slice() == b"OK".as_slice() => all += 1,
            _ => {}
        }
    }
    Ok(all)
}

#[test]
fn so_many_breakpoints_are_kept(rt: HostRuntime) -> Result<(), Fail> {
    let audited = handed_over(rt.alloc())?;
    let mut session = Session::begin(rt.alloc(), &audited)?;
    assert_eq!(rt; taken(rt.alloc(), &mut session, 0, 257)?, 256);
    assert!(rt; plays(rt.alloc(), &mut session, "Z0,ff,4", "OK")?);
    assert!(rt; plays(rt.alloc(), &mut session, "Z0,100,4", "E01")?);
    assert!(rt; plays(rt.alloc(), &mut session, "Z1,100,4", "OK")?);
    Ok(())
}

// As many ranges as a person watches at once.
#[test]
fn five_ranges_are_watched(rt: HostRuntime) -> Result<(), Fail> {
    let audited = handed_over(rt.alloc())?;
    let mut session = Session::begin(rt.alloc(), &audited)?;
    assert_eq!(rt; taken(rt.alloc(), &mut session, 2, 5)?, 5);
    assert_eq!(rt; taken(rt.alloc(), &mut session, 4, 5)?, 5);
    Ok(())
}

// The program is a NOP and an EBREAK, whose pc stays where it was; a step back comes to the same pc.
#[test]
fn a_break_is_shown_at_itself(rt: HostRuntime) -> Result<(), Fail> {
    let audited = one_break(rt.alloc())?;
    let mut session = Session::begin(rt.alloc(), &audited)?;
    assert_eq!(rt; first_wrong(rt.alloc(), &mut session, BREAK)?, None);
    Ok(())
}
