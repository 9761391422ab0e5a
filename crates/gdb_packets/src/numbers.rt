//! Numbers in packets.
ghost use Rattle.std.specs.Prelude.{◌≡◌, ◌^◌, IsTrue, Some, None, nat_lt, if◌then◌else◌, OnOk, ◌++◌};
ghost use Rattle.std.specs.Char.{digit_value, is_digit};
ghost use Rattle.std.specs.List.{list_all};
ghost use Rattle.std.specs.Str.Parse.{digits_value};
ghost use Rattle.gdb_packets.specs.Numbers.{is_numeral, number_of, numeral};

use std::alloc::{AllocError, Global};

/// The number that hexadecimal digits spell, small or capital; `None` where there is none, where another byte is
/// among them, or where the number isn't below 2^64.
#[tactic(auto, unfolding(crate::specs::Numbers::number_of))]
pub fn number_of(text: &[u8]) -> Option<u64>
    ensures { result ≡ number_of text.now }
{
    if is_numeral(text) {
        value_of(text)
    } else {
        None
    }
}

/// Whether there are hexadecimal digits alone, and not none.
fn is_numeral(text: &[u8]) -> bool
    ensures { result ≡ is_numeral text.now }
{
    !text.is_empty() && are_digits(text, 16)
}

/// Whether each byte is a digit of this base.
pub fn are_digits(text: &[u8], base: u8) -> bool
    ensures { result ≡ list_all (λ c. is_digit c base) text.now }
{
    text.iter().all(|b| is_digit(*b, base))
}

/// Whether the byte is a digit of this base.
fn is_digit(byte: u8, base: u8) -> bool
    ensures { result ≡ is_digit byte base }
{
    digit_value(byte) < base
}

/// The value of a digit or of a letter, which goes on behind 9; 36 of another byte.
pub fn digit_value(byte: u8) -> u8
    ensures { result ≡ digit_value byte }
{
    match byte {
        b'0'..=b'9' => byte - b'0',
        b'A'..=b'Z' => byte - b'A' + 10,
        b'a'..=b'z' => byte - b'a' + 10,
        _ => 36,
    }
}

/// The number that the digits spell, where it's below 2^64.
fn value_of(text: &[u8]) -> Option<u64>
    ensures { result ≡ (if nat_lt (digits_value 16 text.now) (2 ^ 64) then Some (digits_value 16 text.now) else None) }
{
    let mut value = 0u64;
    for b in text {
        let more = value as u128 * 16 + digit_value(*b) as u128;
        if more > u64::MAX as u128 {
            return None;
        }
        value = more as u64;
    }
    Some(value)
}

/// Writes a number behind some bytes: small hexadecimal digits, none too many.
pub(crate) fn put_number(alloc: Global, out: &mut Vec<u8>, number: u64) -> Result<(), AllocError>
    ensures { OnOk result (out.new.items ≡ out.old.items ++ numeral number) }
{
    let text = format!(in alloc; "{number:x}")?;
    out.extend_from_slice(text.as_bytes())
}
