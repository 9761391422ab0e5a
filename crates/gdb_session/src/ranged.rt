//! Packets that ask for steps in a range of addresses.
ghost use Rattle.std.specs.Prelude.{◌≡◌, IfOk};
ghost use Rattle.std.specs.Option.{option_map};
ghost use Rattle.gdb_session.specs.Ranged.{asked_in, past_parts, range_of, range_parts, step_packet, text_parts};

use gdb_moves::Range;
use gdb_packets::{Ask, ask_of, behind, cut_at, number_of};
use rtr_types::Items;
use std::alloc::{AllocError, Global};

/// What a packet asks, and the range in which a step that it asks for goes on.
#[derive(Drop)]
pub(crate) struct Ranged {
    /// What it asks.
    pub ask: Ask,
    /// The range, if it has one.
    pub range: Option<Range>,
}

/// What a packet asks. It is refused for want of memory alone.
pub(crate) fn asked_in(alloc: Global, packet: &[u8]) -> Result<Ranged, AllocError>
    ensures { IfOk result (λ asked. asked ≡ asked_in packet.now) }
{
    match range_parts(packet) {
        Some((range, rest)) => {
            let steps = step_packet(alloc, rest)?;
            let ask = ask_of(alloc, steps.as_slice())?;
            Ok(Ranged {
                ask,
                range: Some(range),
            })
        }
        None => {
            let ask = ask_of(alloc, packet)?;
            Ok(Ranged { ask, range: None })
        }
    }
}

/// The range of `vCont;rFROM,PAST:..`, and what stands behind it.
fn range_parts(packet: &[u8]) -> Option<(Range, &[u8])>
    ensures { option_map (λ p. (p.0, p.1.now)) result ≡ range_parts packet.now }
{
    text_parts(behind(packet, "vCont;r")?)
}

/// The same, of what stands behind the letter.
fn text_parts(text: &[u8]) -> Option<(Range, &[u8])>
    ensures { option_map (λ p. (p.0, p.1.now)) result ≡ text_parts text.now }
{
    let (from, more) = cut_at(b',', text)?;
    past_parts(from, more)
}

/// The same, of what stands before the comma and behind it.
fn past_parts<'a>(from: &[u8], more: &'a [u8]) -> Option<(Range, &'a [u8])>
    ensures { option_map (λ p. (p.0, p.1.now)) result ≡ past_parts from.now more.now }
{
    let (past, rest) = cut_at(b':', more)?;
    let range = range_of(number_of(from), number_of(past))?;
    Some((range, rest))
}

/// The range of these addresses.
fn range_of(from: Option<u64>, past: Option<u64>) -> Option<Range>
    ensures { result ≡ range_of from past }
{
    Some(Range {
        from: from?,
        past: past?,
    })
}

/// The packet that asks for one step of the same threads.
fn step_packet(alloc: Global, rest: &[u8]) -> Result<Items<u8>, AllocError>
    ensures { IfOk result (λ packet. packet ≡ step_packet rest.now) }
{
    let mut packet = Vec::from_slice(alloc, "vCont;s:".as_bytes())?;
    packet.extend_from_slice(rest)?;
    Ok(Items::from_vec(packet))
}
