//! What is told of the memory.
ghost use Rattle.std.specs.Prelude.{◌≡◌, ◌<◌, ◌≤◌, ◌+◌, ◌*◌, IfOk};
ghost use Rattle.gdb_places.specs.Memory.{byte_at, bytes_at, bytes_there, memory_reply};

use debug_place::Place;
use gdb_packets::{Reply, Span};
use rtr_types::Items;
use std::alloc::{AllocError, Global};

/// The bytes of a span that lie in the place's memory, which has this many words; a refusal where there are none. It is
/// refused for want of memory alone.
pub fn memory_reply(
    alloc: Global,
    place: &Place,
    words: u32,
    span: Span,
) -> Result<Reply, AllocError>
    requires { words ≡ place.now.recording.params.words }
    ensures { IfOk result (λ reply. reply ≡ memory_reply place.now span) }
{
    let count = bytes_there(words, span);
    if count == 0 {
        return Ok(Reply::Refused);
    }
    Ok(Reply::Bytes(bytes_at(alloc, place, words, span.at, count)?))
}

/// How many bytes of a span lie in a memory of so many words.
fn bytes_there(words: u32, span: Span) -> u64
    ensures { result ≡ bytes_there words span }
{
    let size = words as u64 * 4;
    if span.at >= size {
        return 0;
    }
    let left = size - span.at;
    if span.len < left { span.len } else { left }
}

/// So many bytes of the place's memory, which has this many words, from an address on.
fn bytes_at(
    alloc: Global,
    place: &Place,
    words: u32,
    at: u64,
    count: u64,
) -> Result<Items<u8>, AllocError>
    requires words { words ≡ place.now.recording.params.words }
    requires within { at + count ≤ words * 4 }
    ensures { IfOk result (λ bytes. bytes ≡ bytes_at place.now at count) }
{
    let mut bytes = Items::new(alloc);
    for k in 0..count {
        bytes.push(byte_at(place, words, at + k))?;
    }
    Ok(bytes)
}

/// The byte at an address of the place's memory, which has this many words.
fn byte_at(place: &Place, words: u32, address: u64) -> u8
    requires words { words ≡ place.now.recording.params.words }
    requires within { address < words * 4 }
    ensures { result ≡ byte_at place.now address }
{
    let word = place.word((address / 4) as u32);
    word.to_le_bytes()[(address % 4) as usize]
}
