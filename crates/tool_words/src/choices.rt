//! Choice bytes on the command line.
ghost use Rattle.std.specs.Prelude.{◌≡◌, ◌+◌, ◌*◌, ◌<◌, IfOk, length};
ghost use Rattle.std.specs.List.{list_all};
ghost use Rattle.std.specs.Option.{option_map};
ghost use Rattle.tool_words.specs.Choices.{are_choices, byte_at, bytes_of, digit_value, is_hex_digit, spelled_bytes};

use rtr_types::Items;
use std::alloc::{AllocError, Global};

/// The bytes that a text of choices spells; none where there is no text.
pub(crate) fn bytes_of(alloc: Global, text: Option<&str>) -> Result<Items<u8>, AllocError>
    ensures { IfOk result (λ bytes. bytes ≡ bytes_of (option_map (λ t. t.now) text.entry)) }
{
    match text {
        Some(text) => spelled_bytes(alloc, text.as_bytes()),
        None => Ok(Items::new(alloc)),
    }
}

/// Whether there are lower-case hexadecimal digits alone, and an even number of them but not none.
pub(crate) fn are_choices(digits: &[u8]) -> bool
    ensures { result ≡ are_choices digits.now }
{
    !digits.is_empty() && digits.len() % 2 == 0 && are_hex_digits(digits)
}

/// Whether each byte is a lower-case hexadecimal digit.
fn are_hex_digits(bytes: &[u8]) -> bool
    ensures { result ≡ list_all is_hex_digit bytes.now }
{
    bytes.iter().all(|b| is_hex_digit(*b))
}

/// Whether the byte is a lower-case hexadecimal digit.
fn is_hex_digit(byte: u8) -> bool
    ensures { result ≡ is_hex_digit byte }
{
    matches!(byte, b'0'..=b'9' | b'a'..=b'f')
}

/// The bytes that the digits spell.
#[tactic(auto, using(rtr_types::proofs::Ranges::map_range_more), unfolding(crate::specs::Choices::spelled_bytes))]
fn spelled_bytes(alloc: Global, digits: &[u8]) -> Result<Items<u8>, AllocError>
    ensures { IfOk result (λ bytes. bytes ≡ spelled_bytes digits.now) }
{
    let mut bytes = Items::new(alloc);
    for number in 0..digits.len() / 2 {
        bytes.push(byte_at(digits, number))?;
    }
    Ok(bytes)
}

/// The byte of this number, from 0, that the digits spell: the high digit first.
fn byte_at(digits: &[u8], number: usize) -> u8
    requires { 2 * number + 1 < length digits.now }
    ensures { result ≡ byte_at digits.now number }
{
    16 * digit_value(digits[2 * number]) + digit_value(digits[2 * number + 1])
}

/// The value of a lower-case hexadecimal digit; 0 for any other byte.
fn digit_value(digit: u8) -> u8
    ensures value { result ≡ digit_value digit }
    ensures within { result < 16 }
{
    match digit {
        b'0'..=b'9' => digit - b'0',
        b'a'..=b'f' => digit - b'a' + 10,
        _ => 0,
    }
}
