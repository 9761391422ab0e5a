//! What packets mean, by their grammar.
ghost use Rattle.std.specs.Prelude.{◌≡◌, IfOk};
ghost use Rattle.gdb_packets.specs.Asks.{action_of, acted, actions_in, ask_of, resume_of, spelled_command, steps_by};
ghost use Rattle.gdb_packets.specs.Asks.{with_signal};
ghost use Rattle.gdb_packets.specs.Texts.{pieces_at};
ghost use Rattle.hex.specs.Hex.{decode_of};

use crate::asks::{Action, Ask, Plain, Thread};
use crate::numbers::number_of;
use crate::plain::{plain_of, thread_of};
use crate::texts::{behind, cut_at, is};
use hex::FromHexError;
use rtr_types::Items;
use std::alloc::{AllocError, Global};

/// What a packet with this payload asks. It is refused for want of memory alone.
pub fn ask_of(alloc: Global, payload: &[u8]) -> Result<Ask, AllocError>
    ensures { IfOk result (λ ask. ask ≡ ask_of payload.now) }
{
    if let Some(digits) = behind(payload, "qRcmd,") {
        return command_of(alloc, digits);
    }
    if let Some(text) = behind(payload, "vCont;") {
        return resume_of(alloc, text);
    }
    Ok(Ask::Plain(plain_of(payload)))
}

/// The command that digits spell.
fn command_of(alloc: Global, digits: &[u8]) -> Result<Ask, AllocError>
    ensures { IfOk result (λ ask. ask ≡ spelled_command (decode_of digits.now)) }
{
    match hex::decode(alloc, digits) {
        Ok(text) => Ok(Ask::Command(Items::from_vec(text))),
        Err(FromHexError::OutOfMemory) => Err(AllocError),
        Err(_) => Ok(Ask::Plain(Plain::Malformed)),
    }
}

/// Threads go on, by the actions that the text has.
fn resume_of(alloc: Global, text: &[u8]) -> Result<Ask, AllocError>
    ensures { IfOk result (λ ask. ask ≡ resume_of text.now) }
{
    match actions_of(alloc, text)? {
        Some(actions) => Ok(Ask::Resume(actions)),
        None => Ok(Ask::Plain(Plain::Malformed)),
    }
}

/// The actions that the text has, unless one is none.
fn actions_of(alloc: Global, text: &[u8]) -> Result<Option<Items<Action>>, AllocError>
    ensures { IfOk result (λ actions. actions ≡ actions_in (pieces_at 59 text.now)) }
{
    let mut actions = Items::new(alloc);
    let mut rest = text;
    while let Some((front, more)) = cut_at(b';', rest) {
        match action_of(front) {
            Some(action) => actions.push(action)?,
            None => return Ok(None),
        }
        rest = more;
    }
    match action_of(rest) {
        Some(action) => {
            actions.push(action)?;
            Ok(Some(actions))
        }
        None => Ok(None),
    }
}

/// One action: what to do and who, or what all do.
fn action_of(text: &[u8]) -> Option<Action>
    ensures { result ≡ action_of text.now }
{
    match cut_at(b':', text) {
        Some((how, who)) => acted(how, thread_of(who)),
        None => acted(text, Some(Thread::All)),
    }
}

/// An action of these threads.
fn acted(how: &[u8], who: Option<Thread>) -> Option<Action>
    ensures { result ≡ acted how.now who }
{
    match (steps_by(how), who) {
        (Some(step), Some(who)) => Some(Action { step, who }),
        _ => None,
    }
}

/// Whether this action is a step; `None` where it's neither a step nor going on.
fn steps_by(text: &[u8]) -> Option<bool>
    ensures { result ≡ steps_by text.now }
{
    if is(text, "c") {
        Some(false)
    } else if is(text, "s") {
        Some(true)
    } else {
        with_signal(text, "C", false).or(with_signal(text, "S", true))
    }
}

/// The action whose letter is followed by a signal, which doesn't matter.
fn with_signal(text: &[u8], letter: &str, step: bool) -> Option<bool>
    ensures { result ≡ with_signal text.now letter.now step }
{
    let signal = behind(text, letter)?;
    number_of(signal)?;
    Some(step)
}
