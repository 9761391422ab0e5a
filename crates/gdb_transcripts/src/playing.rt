//! What a stored session comes to.
use crate::lines::line_of;
use crate::player::Player;
use gdb_session::Session;
use log_codec::{CodecFault, read};
use replay_audit::{AuditFault, Audited, audit};
use rtr_types::Which;
use std::alloc::{AllocError, Global};
use std::io;

/// What a stored session came to.
#[derive(Clone, Copy)]
pub struct Played {
    /// How many packets it has.
    pub packets: usize,
    /// How many answers it has.
    pub answers: usize,
    /// The number of the first line that the session doesn't do, from 1 on.
    pub other: Option<usize>,
}

/// The audit of the recording by its reduced log.
pub fn audited(alloc: Global, bytes: &[u8]) -> io::Result<Audited> {
    let recording = match read(alloc, bytes) {
        Ok(recording) => recording,
        Err(CodecFault::OutOfMemory) => return Err(AllocError.into()),
        Err(CodecFault::Bad { .. }) => return Err(io::ErrorKind::InvalidData.into()),
    };
    match audit(alloc, recording, Which::Reduced) {
        Ok(audited) => Ok(audited),
        Err(AuditFault::OutOfMemory) => Err(AllocError.into()),
        Err(_) => Err(io::ErrorKind::InvalidData.into()),
    }
}

/// Plays a stored session.
pub fn play(alloc: Global, audited: &Audited, text: &[u8]) -> Result<Played, AllocError> {
    let session = Session::begin(alloc, audited)?;
    Ok(Played {
        packets: packets(text),
        answers: answers(text),
        other: first_other(alloc, Player::new(alloc, session), text)?,
    })
}

/// How many packets there are.
fn packets(text: &[u8]) -> usize {
    text.split(|byte| *byte == b'\n')
        .filter(|line| line_of(line).is_packet())
        .count()
}

/// How many answers there are.
fn answers(text: &[u8]) -> usize {
    text.split(|byte| *byte == b'\n')
        .filter(|line| line_of(line).is_answer())
        .count()
}

/// The number of the first line that the session doesn't do, or of the last one where an answer is left after it.
fn first_other(
    alloc: Global,
    mut player: Player,
    text: &[u8],
) -> Result<Option<usize>, AllocError> {
    let mut last = 0;
    for (number, line) in (1..=usize::MAX).zip(text.split(|byte| *byte == b'\n')) {
        last = number;
        if !player.plays(alloc, line_of(line))? {
            return Ok(Some(last));
        }
    }
    Ok(if player.is_heard() { None } else { Some(last) })
}
