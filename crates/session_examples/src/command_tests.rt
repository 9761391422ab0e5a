//! Commands of a debugger's user.
use crate::command_rows::{MARKED, PLACES, REFUSED, RUN, Told};
use crate::handed_over::{handed_over, many_loads};
use crate::lock::lock;
use crate::rows::plays;
use gdb_commands::payloads_of;
use gdb_server::Partner;
use gdb_session::Session;
use rtr_types::Items;
use std::alloc::Global;
use std::test::Fail;

/// Whether the session tells this of a command.
fn tells(alloc: Global, session: &mut Session, command: &str, told: &str) -> Result<bool, Fail> {
    let digits = hex::encode(alloc, command)?;
    let packet = format!(in alloc; "qRcmd,{digits}")?;
    let answer = session.answer(alloc, packet.as_bytes())?;
    let digits = hex::encode(alloc, told)?;
    match answer.payloads.as_slice() {
        [one] => Ok(one.as_slice() == digits.as_bytes()),
        _ => Ok(false),
    }
}

/// The first command of which something else is told.
fn first_wrong(alloc: Global, session: &mut Session, rows: &[Told]) -> Result<&'static str, Fail> {
    for row in rows {
        if !tells(alloc, session, row.command, row.told)? {
            return Ok(row.command);
        }
    }
    Ok("none")
}

/// Goes on to the load of the counter.
fn goes_on(alloc: Global, session: &mut Session) -> Result<bool, Fail> {
    Ok(
        plays(alloc, session, "Z0,98,4", "OK")?
            && plays(alloc, session, "vCont;c", "T05thread:3;swbreak:;")?,
    )
}

#[test]
fn commands_go_and_tell_where(rt: HostRuntime) -> Result<(), Fail> {
    let audited = lock(rt.alloc())?;
    let mut session = Session::begin(rt.alloc(), &audited)?;
    assert!(rt; goes_on(rt.alloc(), &mut session)?);
    assert_eq!(rt; first_wrong(rt.alloc(), &mut session, &PLACES)?, "none");
    Ok(())
}

#[test]
fn marks_are_come_back_to(rt: HostRuntime) -> Result<(), Fail> {
    let audited = lock(rt.alloc())?;
    let mut session = Session::begin(rt.alloc(), &audited)?;
    assert!(rt; goes_on(rt.alloc(), &mut session)?);
    assert_eq!(rt; first_wrong(rt.alloc(), &mut session, &MARKED)?, "none");
    Ok(())
}

#[test]
fn commands_tell_what_a_run_did(rt: HostRuntime) -> Result<(), Fail> {
    let audited = handed_over(rt.alloc())?;
    let mut session = Session::begin(rt.alloc(), &audited)?;
    assert_eq!(rt; first_wrong(rt.alloc(), &mut session, &RUN)?, "none");
    Ok(())
}

/// How long the payloads of a text of so many bytes are.
fn lengths(alloc: Global, count: usize) -> Result<Items<usize>, Fail> {
    let mut text = Items::new(alloc);
    for _ in 0..count {
        text.push(b'a')?;
    }
    let mut lengths = Items::new(alloc);
    for payload in payloads_of(alloc, text)?.as_slice() {
        lengths.push(payload.len())?;
    }
    Ok(lengths)
}

/// Whether the payloads of a text of so many bytes are so long.
fn are_cut(alloc: Global, count: usize, wanted: &[usize]) -> Result<bool, Fail> {
    Ok(lengths(alloc, count)?.as_slice() == wanted)
}

// One frame, or frames with a letter before and one frame behind them.
#[test]
fn long_texts_are_cut(rt: HostRuntime) -> Result<(), Fail> {
    assert!(rt; are_cut(rt.alloc(), 1000, &[2000])?);
    assert!(rt; are_cut(rt.alloc(), 1001, &[2001, 3, 2])?);
    assert!(rt; are_cut(rt.alloc(), 2000, &[2001, 2001, 2])?);
    Ok(())
}

// What is refused leaves the place as it was.
#[test]
fn other_commands_are_refused(rt: HostRuntime) -> Result<(), Fail> {
    let audited = lock(rt.alloc())?;
    let mut session = Session::begin(rt.alloc(), &audited)?;
    assert!(rt; goes_on(rt.alloc(), &mut session)?);
    assert_eq!(rt; first_wrong(rt.alloc(), &mut session, &REFUSED)?, "none");
    assert!(rt; tells(rt.alloc(), &mut session, "cut", "cut 32 26 32 26\n")?);
    Ok(())
}

/// How many payloads tell a command.
fn payloads(alloc: Global, session: &mut Session, command: &str) -> Result<usize, Fail> {
    let digits = hex::encode(alloc, command)?;
    let packet = format!(in alloc; "qRcmd,{digits}")?;
    Ok(session.answer(alloc, packet.as_bytes())?.payloads.len())
}

// 221,298 bytes in frames of 1000, and one frame behind them.
#[test]
fn a_long_history_is_told(rt: HostRuntime) -> Result<(), Fail> {
    let audited = many_loads(rt.alloc())?;
    let mut session = Session::begin(rt.alloc(), &audited)?;
    assert_eq!(rt; payloads(rt.alloc(), &mut session, "history 64")?, 223);
    Ok(())
}
