//! Documents that are asked for part by part.
ghost use Rattle.std.specs.Prelude.{◌≡◌, IfOk};
ghost use Rattle.gdb_places.specs.Parts.{part_from, part_reply};

use gdb_packets::{Reply, Span};
use rtr_types::Items;
use std::alloc::{AllocError, Global};

/// The part of a text that a span asks for. It is refused for want of memory alone.
pub fn part_reply(alloc: Global, text: &[u8], span: Span) -> Result<Reply, AllocError>
    ensures { IfOk result (λ reply. reply ≡ part_reply text.now span) }
{
    if span.at >= text.len() as u64 {
        return part_from(alloc, &[], span.len);
    }
    part_from(alloc, &text[span.at as usize..], span.len)
}

/// So many bytes of what is left of a text.
fn part_from(alloc: Global, rest: &[u8], len: u64) -> Result<Reply, AllocError>
    ensures { IfOk result (λ reply. reply ≡ part_from rest.now len) }
{
    if rest.len() as u64 <= len {
        return Ok(Reply::LastPart(copied(alloc, rest)?));
    }
    Ok(Reply::Part(copied(alloc, &rest[..len as usize])?))
}

/// The bytes of their own.
fn copied(alloc: Global, bytes: &[u8]) -> Result<Items<u8>, AllocError>
    ensures { IfOk result (λ list. list ≡ bytes.now) }
{
    Ok(Items::from_vec(Vec::from_slice(alloc, bytes)?))
}
