//! A text for the debugger's user, in payloads.
ghost use Rattle.std.specs.Prelude.{◌≡◌, ◌≤◌, ◌*◌, ◌∷◌, [], ◌++◌, IfOk, length, take};
ghost use Rattle.gdb_commands.specs.Payloads.{outputs, part_of, parts_in, payloads_of};
ghost use Rattle.gdb_packets.specs.Replies.{spelled};
ghost use Rattle.gdb_packets.specs.declared.replies.Reply.TheVariants.{Done, Output};

use crate::FRAME_MAX;
use gdb_packets::{Reply, spell};
use rtr_types::Items;
use std::alloc::{AllocError, Global};

/// The payloads of a text for the debugger's user: one, or where the text has more than `FRAME_MAX` bytes one for each
/// part of so many, and then one that says that it's done. It is refused for want of memory alone.
pub fn payloads_of(alloc: Global, text: Items<u8>) -> Result<Items<Items<u8>>, AllocError>
    ensures { IfOk result (λ payloads. payloads ≡ payloads_of text) }
{
    if text.len() > FRAME_MAX {
        in_parts(alloc, text.as_slice())
    } else {
        in_one(alloc, &Reply::Bytes(text))
    }
}

/// A payload for each part of a text, and then one that says that it's done.
fn in_parts(alloc: Global, text: &[u8]) -> Result<Items<Items<u8>>, AllocError>
    ensures { IfOk result (λ payloads. payloads ≡ outputs text.now (parts_in text.now) ++ spelled Done ∷ []) }
{
    let mut payloads = outputs(alloc, text)?;
    payloads.push(spell(alloc, &Reply::Done)?)?;
    Ok(payloads)
}

/// One payload.
fn in_one(alloc: Global, reply: &Reply) -> Result<Items<Items<u8>>, AllocError>
    ensures { IfOk result (λ payloads. payloads ≡ spelled reply.now ∷ []) }
{
    let mut payloads = Items::new(alloc);
    payloads.push(spell(alloc, reply)?)?;
    Ok(payloads)
}

/// A payload for each part of a text.
fn outputs(alloc: Global, text: &[u8]) -> Result<Items<Items<u8>>, AllocError>
    ensures { IfOk result (λ payloads. payloads ≡ outputs text.now (parts_in text.now)) }
{
    let mut payloads = Items::new(alloc);
    for part in 0..text.len().div_ceil(FRAME_MAX) {
        payloads.push(output(alloc, text, part)?)?;
    }
    Ok(payloads)
}

/// The payload of the part of a text with this number.
fn output(alloc: Global, text: &[u8], part: usize) -> Result<Items<u8>, AllocError>
    requires { FRAME_MAX * part ≤ length text.now }
    ensures { IfOk result (λ payload. payload ≡ spelled (Output (part_of text.now part))) }
{
    let front = front_of(&text[FRAME_MAX * part..], FRAME_MAX);
    let bytes = Items::from_vec(Vec::from_slice(alloc, front)?);
    spell(alloc, &Reply::Output(bytes))
}

/// As many of the bytes, or all where there are fewer.
fn front_of(text: &[u8], most: usize) -> &[u8]
    ensures { result.now ≡ take most text.now }
{
    if text.len() > most {
        &text[..most]
    } else {
        text
    }
}
