//! Parts of a text, and the numbers in a claim.
ghost use Rattle.std.specs.Prelude.{◌≡◌, ◌<◌, ◌-◌, IfSome, [], codes};
ghost use Rattle.std.specs.Char.{is_ascii_hexdigit};
ghost use Rattle.std.specs.List.{list_all};
ghost use Rattle.std.specs.Option.{option_map};
ghost use Rattle.end_claims.specs.Numbers.{are_hex_digits, before_last, behind, hex_number, negative_number, parted};
ghost use Rattle.end_claims.specs.Numbers.{prefixed_number, word_of};

use tool_words::number_between;

/// What stands before and after the first character of this kind.
pub fn parted(at: char, text: &str) -> Option<(&str, &str)>
    requires { at < 128 }
    ensures { option_map (λ parts. (parts.0.now, parts.1.now)) result ≡ parted at text.now }
{
    text.split_once(at)
}

/// What stands behind the first character of this kind, where the text before it is `front`.
#[tactic(auto, unfolding(crate::specs::Numbers::behind))]
pub fn behind<'a>(front: &str, at: char, text: &'a str) -> Option<&'a str>
    requires { at < 128 }
    ensures { option_map (λ rest. rest.now) result ≡ behind front.now at text.now }
{
    let (before, rest) = parted(at, text)?;
    if before == front { Some(rest) } else { None }
}

/// What stands before the first character of this kind, which is the text's last.
#[tactic(auto, unfolding(crate::specs::Numbers::before_last))]
pub(crate) fn before_last(at: char, text: &str) -> Option<&str>
    requires { at < 128 }
    ensures { option_map (λ front. front.now) result ≡ before_last at text.now }
{
    let (front, rest) = parted(at, text)?;
    if rest.is_empty() { Some(front) } else { None }
}

/// Whether there are 1 to 8 hexadecimal digits, and nothing else.
fn are_hex_digits(text: &[u8]) -> bool
    ensures { result ≡ are_hex_digits text.now }
{
    let few = 1 <= text.len() && text.len() <= 8;
    few && are_all_hex(text)
}

/// Whether each byte is a hexadecimal digit.
fn are_all_hex(text: &[u8]) -> bool
    ensures { result ≡ list_all is_ascii_hexdigit text.now }
{
    text.iter().all(|b| b.is_ascii_hexdigit())
}

/// The number that 1 to 8 hexadecimal digits spell.
pub(crate) fn hex_number(text: &str) -> Option<u32>
    ensures { result ≡ hex_number text.now }
{
    if !are_hex_digits(text.as_bytes()) {
        return None;
    }
    u32::from_str_radix(text, 16).ok()
}

/// The number that `0x` and hexadecimal digits are.
#[tactic(auto, unfolding(crate::specs::Numbers::prefixed_number))]
fn prefixed_number(text: &str) -> Option<u32>
    ensures { result ≡ prefixed_number text.now }
{
    hex_number(behind("0", 'x', text)?)
}

/// The word that `-` and a number from 1 to 2^31 are.
#[tactic(auto, unfolding(crate::specs::Numbers::negative_number))]
fn negative_number(text: &str) -> Option<u32>
    ensures { result ≡ negative_number text.now }
{
    let below = number_between(1, 1 << 31, behind("", '-', text)?)?;
    Some(((1 << 32) - below) as u32)
}

/// The word that a text is: hexadecimal behind `0x`, or decimal from -2^31 to 2^32 - 1.
#[tactic(auto, unfolding(crate::specs::Numbers::word_of))]
pub(crate) fn word_of(text: &str) -> Option<u32>
    ensures { result ≡ word_of text.now }
{
    if let Some(word) = prefixed_number(text) {
        return Some(word);
    }
    if let Some(word) = negative_number(text) {
        return Some(word);
    }
    Some(number_between(0, u32::MAX as u64, text)? as u32)
}
