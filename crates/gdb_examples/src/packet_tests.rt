//! What packets ask.
use crate::list_rows::{COMMANDS, RESUMES};
use crate::plain_rows::{MALFORMED, OTHERS, POINTS, SESSIONS, UNKNOWN};
use crate::rows::{Asked, Row};
use gdb_packets::{Ask, Plain, Span, ask_of};
use std::alloc::{AllocError, Global};
use std::test::Fail;

/// Whether the packet asks this.
fn is_right(alloc: Global, payload: &str, asks: &Asked) -> Result<bool, AllocError> {
    Ok(match (ask_of(alloc, payload.as_bytes())?, asks) {
        (Ask::Plain(found), Asked::Plain(wanted)) => found == *wanted,
        (Ask::Resume(found), Asked::Resume(actions)) => found.as_slice() == *actions,
        (Ask::Command(found), Asked::Command(text)) => found.as_slice() == text.as_bytes(),
        _ => false,
    })
}

/// The first packet that asks something else than its row says.
fn first_wrong(alloc: Global, rows: &[Row]) -> Result<&'static str, AllocError> {
    for row in rows {
        if !is_right(alloc, row.payload, &row.asks)? {
            return Ok(row.payload);
        }
    }
    Ok("none")
}

#[test]
fn packets_ask_what_gdb_means(rt: HostRuntime) -> Result<(), Fail> {
    assert_eq!(rt; first_wrong(rt.alloc(), &SESSIONS)?, "none");
    assert_eq!(rt; first_wrong(rt.alloc(), &OTHERS)?, "none");
    // Threads go on by their actions, and commands are their digits.
    assert_eq!(rt; first_wrong(rt.alloc(), &RESUMES)?, "none");
    assert_eq!(rt; first_wrong(rt.alloc(), &COMMANDS)?, "none");
    Ok(())
}

#[test]
fn packets_may_be_malformed_or_unknown(rt: HostRuntime) -> Result<(), Fail> {
    let malformed = Asked::Plain(Plain::Malformed);
    for payload in MALFORMED {
        assert!(rt; is_right(rt.alloc(), payload, &malformed)?, "{payload}");
    }
    let unknown = Asked::Plain(Plain::Unknown);
    for payload in UNKNOWN {
        assert!(rt; is_right(rt.alloc(), payload, &unknown)?, "{payload}");
    }
    Ok(())
}

#[test]
fn points_are_set_and_cleared(rt: HostRuntime) -> Result<(), Fail> {
    let alloc = rt.alloc();
    for point in &POINTS {
        let span = Span {
            at: point.at,
            len: 4,
        };
        for (letter, asks) in [
            ("Z", Plain::SetPoint(point.kind, span)),
            ("z", Plain::ClearPoint(point.kind, span)),
        ] {
            let packet = format!(in alloc; "{letter}{}", point.packet)?;
            assert!(rt; is_right(alloc, &packet, &Asked::Plain(asks))?, "{packet}");
        }
    }
    Ok(())
}
