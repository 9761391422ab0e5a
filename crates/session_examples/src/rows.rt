//! What packets are answered, by the texts of sessions. A line `> PACKET` has a packet, and the next one, `< ANSWER`,
//! what it is answered. In place of an answer there may be the name of a piece of the text, as in `@THREADS_AT_START`.
use gdb_server::{Answer, Partner};
use gdb_session::Session;
use row_texts::{is_piece, piece};
use std::alloc::{AllocError, Global};

/// Whether the answer is this one payload.
fn is_one(answer: &Answer, payload: &str) -> bool {
    match answer.payloads.as_slice() {
        [one] => one.as_slice() == payload.as_bytes(),
        _ => false,
    }
}

/// Whether the session answers the packet so.
pub fn plays(
    alloc: Global,
    session: &mut Session,
    packet: &str,
    payload: &str,
) -> Result<bool, AllocError> {
    let answer = session.answer(alloc, packet.as_bytes())?;
    Ok(is_one(&answer, payload))
}

/// What a line with this mark says.
fn said<'a>(line: &'a str, mark: &str) -> Option<&'a str> {
    let said = line.strip_prefix(mark)?;
    Some(said.strip_prefix(" ").unwrap_or(said))
}

/// The payload that a line says: a piece of the text, or what it says itself.
fn payload_of<'a>(text: &'a str, line: &'a str) -> Option<&'a str> {
    let said = said(line, "<")?;
    match said.strip_prefix("@") {
        Some(name) => first_plain(piece(text, name)?),
        None => Some(said),
    }
}

/// The first of the lines that is no remark.
fn first_plain(lines: &str) -> Option<&str> {
    for line in lines.split('\n') {
        if !line.starts_with("#") {
            return Some(line);
        }
    }
    None
}

/// Whether the session answers the packet as the line says.
fn is_answered(
    alloc: Global,
    session: &mut Session,
    text: &str,
    packet: &str,
    line: &str,
) -> Result<bool, AllocError> {
    match payload_of(text, line) {
        Some(payload) => plays(alloc, session, packet, payload),
        None => Ok(false),
    }
}

/// The first packet of the block whose answer isn't that of the text.
fn wrong_in<'a>(
    alloc: Global,
    session: &mut Session,
    text: &str,
    block: &'a str,
) -> Result<Option<&'a str>, AllocError> {
    let mut packet = "";
    for line in block.split('\n') {
        if let Some(sent) = said(line, ">") {
            packet = sent;
        } else if !is_answered(alloc, session, text, packet, line)? {
            return Ok(Some(packet));
        }
    }
    Ok(None)
}

/// The first packet of the session whose answer isn't that of the text.
pub fn first_wrong<'a>(
    alloc: Global,
    session: &mut Session,
    text: &'a str,
) -> Result<Option<&'a str>, AllocError> {
    for block in text.split("\n\n") {
        if is_piece(block) {
            continue;
        }
        if let Some(packet) = wrong_in(alloc, session, text, block)? {
            return Ok(Some(packet));
        }
    }
    Ok(None)
}
