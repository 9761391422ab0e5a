//! Numbers in commands.
ghost use Rattle.std.specs.Prelude.{◌≡◌, ◌≤◌, ◌<◌, ◌^◌, Some, None, IfSome, nat_lt, if◌then◌else◌};
ghost use Rattle.std.specs.Str.Parse.{digits_value};
ghost use Rattle.gdb_commands.specs.Numbers.{address_of, core_of, count_of, instr_of, is_decimal, is_padded};
ghost use Rattle.gdb_commands.specs.Numbers.{address_within, named_instr, number_below, word_of};

use gdb_packets::{are_digits, behind, cut_at, digit_value, number_of};
use rtr_types::Instr;

/// One more than the greatest count.
const COUNTS: u64 = 1 << 32;

/// One more than the greatest number of a core.
const CORES: u64 = 1 << 8;

/// The number that the text is, where it's below another: decimal digits without a sign, and without a leading zero
/// but for `0` itself.
#[tactic(auto, unfolding(crate::specs::Numbers::number_below))]
fn number_below(past: u64, text: &[u8]) -> Option<u64>
    requires { past ≤ 2 ^ 32 }
    ensures value { result ≡ number_below past text.now }
    ensures within { IfSome result (λ n. n < past) }
{
    if is_decimal(text) {
        value_below(past, text)
    } else {
        None
    }
}

/// Whether the text is a decimal number.
fn is_decimal(text: &[u8]) -> bool
    ensures { result ≡ is_decimal text.now }
{
    !text.is_empty() && !is_padded(text) && are_digits(text, 10)
}

/// Whether there are several bytes and the first is `0`.
fn is_padded(text: &[u8]) -> bool
    ensures { result ≡ is_padded text.now }
{
    text.len() > 1 && text[0] == b'0'
}

/// The number that the digits spell, where it's below another.
fn value_below(past: u64, text: &[u8]) -> Option<u64>
    requires { past ≤ 2 ^ 32 }
    ensures value { result
        ≡ (if nat_lt (digits_value 10 text.now) past then Some (digits_value 10 text.now) else None) }
    ensures within { IfSome result (λ n. n < past) }
{
    let mut value = 0u64;
    for b in text {
        value = value * 10 + digit_value(*b) as u64;
        if value >= past {
            return None;
        }
    }
    if value < past { Some(value) } else { None }
}

/// A core, of which there may be no such.
pub(crate) fn core_of(text: &[u8]) -> Option<u8>
    ensures { result ≡ core_of text.now }
{
    Some(number_below(CORES, text)? as u8)
}

/// A count of instructions.
pub(crate) fn count_of(text: &[u8]) -> Option<u32>
    ensures { result ≡ count_of text.now }
{
    Some(number_below(COUNTS, text)? as u32)
}

/// The instruction of a core with a count.
fn instr_of(core: Option<u8>, count: Option<u32>) -> Option<Instr>
    ensures { result ≡ instr_of core count }
{
    Some(Instr {
        core: core?,
        count: count?,
    })
}

/// An instruction, as `C:N`.
pub(crate) fn named_instr(text: &[u8]) -> Option<Instr>
    ensures { result ≡ named_instr text.now }
{
    let (core, count) = cut_at(b':', text)?;
    instr_of(core_of(core), count_of(count))
}

/// A number, where it has 32 bits.
fn address_within(number: Option<u64>) -> Option<u32>
    ensures { result ≡ address_within number }
{
    match number {
        Some(number) if number < COUNTS => Some(number as u32),
        _ => None,
    }
}

/// An address: decimal, or hexadecimal behind `0x`.
pub(crate) fn address_of(text: &[u8]) -> Option<u32>
    ensures { result ≡ address_of text.now }
{
    match behind(text, "0x") {
        Some(digits) => address_within(number_of(digits)).or(count_of(text)),
        None => count_of(text),
    }
}

/// The index of the word that an address lies in.
pub(crate) fn word_of(text: &[u8]) -> Option<u32>
    ensures { result ≡ word_of text.now }
{
    Some(address_of(text)? / 4)
}
