//! Frames as they are written, and the laws of reading them.
ghost use Rattle.std.specs.Prelude.{◌≡◌, ◌++◌, ◌<◌, IfOk, IfSome, OnOk};
ghost use Rattle.hex.specs.Hex.{hex_digit_value};
ghost use Rattle.gdb_packets.specs.Frames.{PiecesLaw, ReadBackLaw, are_digits_of, body_of, checksum, enclosed};
ghost use Rattle.gdb_packets.specs.Frames.{framed, is_special, payload_max, sum_digits};
ghost use Rattle.gdb_packets.specs.declared.TheConstants.{PAYLOAD_MAX};

use rtr_types::Items;
use std::alloc::{AllocError, Global};

/// The sixteen digits.
const DIGITS: &[u8; 16] = b"0123456789abcdef";

/// What a byte behind `}` is xored with.
pub(crate) const ESCAPE: u8 = 0x20;

/// The frame of a payload. It is refused for want of memory alone.
pub fn frame(alloc: Global, payload: &[u8]) -> Result<Items<u8>, AllocError>
    ensures { IfOk result (λ bytes. bytes ≡ framed payload.now) }
{
    let body = body_of(alloc, payload)?;
    enclosed(alloc, body.as_slice())
}

/// A body in its frame.
fn enclosed(alloc: Global, body: &[u8]) -> Result<Items<u8>, AllocError>
    ensures { IfOk result (λ bytes. bytes ≡ enclosed body.now) }
{
    let mut out = Vec::new(alloc);
    out.push(b'$')?;
    out.extend_from_slice(body)?;
    out.push(b'#')?;
    put_sum(&mut out, checksum(body))?;
    Ok(Items::from_vec(out))
}

/// Writes the two digits of a sum behind some bytes.
fn put_sum(out: &mut Vec<u8>, sum: u8) -> Result<(), AllocError>
    ensures { OnOk result (out.new.items ≡ out.old.items ++ sum_digits sum) }
{
    out.push(DIGITS[(sum / 16) as usize])?;
    out.push(DIGITS[(sum % 16) as usize])?;
    Ok(())
}

/// The sum of the bytes, modulo 256.
fn checksum(body: &[u8]) -> u8
    ensures { result ≡ checksum body.now }
{
    let mut sum = 0u8;
    for b in body {
        sum = sum.wrapping_add(*b);
    }
    sum
}

/// The body that spells a payload.
fn body_of(alloc: Global, payload: &[u8]) -> Result<Items<u8>, AllocError>
    ensures { IfOk result (λ bytes. bytes ≡ body_of payload.now) }
{
    let mut body = Items::new(alloc);
    for b in payload {
        if is_special(*b) {
            body.push(b'}')?;
            body.push(*b ^ ESCAPE)?;
        } else {
            body.push(*b)?;
        }
    }
    Ok(body)
}

/// Whether a body may not have this byte as it is.
fn is_special(byte: u8) -> bool
    ensures { result ≡ is_special byte }
{
    matches!(byte, b'$' | b'#' | b'}' | b'*')
}

/// Whether the two bytes are the digits of the number, small or capital.
pub(crate) fn are_digits_of(number: u8, high: u8, low: u8) -> bool
    ensures { result ≡ are_digits_of number high low }
{
    match (digit_value(high), digit_value(low)) {
        (Some(high), Some(low)) => 16 * high + low == number,
        _ => false,
    }
}

/// The value of a hexadecimal digit, small or capital; `None` for any other byte.
pub(crate) fn digit_value(digit: u8) -> Option<u8>
    ensures value { result ≡ hex_digit_value digit }
    ensures within { IfSome result (λ v. v < 16) }
{
    match digit {
        b'A'..=b'F' => Some(digit - b'A' + 10),
        b'a'..=b'f' => Some(digit - b'a' + 10),
        b'0'..=b'9' => Some(digit - b'0'),
        _ => None,
    }
}

/// How many bytes a payload that is read has at most, as a number.
pub fn sizes_law()
    ensures { PAYLOAD_MAX ≡ payload_max }
{}

/// A frame is read back, whatever stands before it and behind it.
pub fn a_frame_is_read_back()
    ensures { ReadBackLaw }
{}

/// Bytes that come in pieces tell what they tell together.
pub fn pieces_make_no_difference()
    ensures { PiecesLaw }
{}
