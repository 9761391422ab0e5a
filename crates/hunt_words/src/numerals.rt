//! Texts that are numbers in form.
ghost use Rattle.std.specs.Prelude.{◌≡◌};
ghost use Rattle.std.specs.Char.{is_ascii_digit};
ghost use Rattle.std.specs.List.{list_all};
ghost use Rattle.tool_words.specs.Numerals.{is_numeral, is_padded};

/// Whether the text is a number: decimal digits without a sign, and without a leading zero but for `0` itself.
pub(crate) fn is_numeral(digits: &[u8]) -> bool
    ensures { result ≡ is_numeral digits.now }
{
    !digits.is_empty() && !is_padded(digits) && are_digits(digits)
}

/// Whether there are several bytes and the first is `0`.
fn is_padded(digits: &[u8]) -> bool
    ensures { result ≡ is_padded digits.now }
{
    digits.len() > 1 && digits[0] == b'0'
}

/// Whether each byte is a decimal digit.
fn are_digits(bytes: &[u8]) -> bool
    ensures { result ≡ list_all is_ascii_digit bytes.now }
{
    bytes.iter().all(|b| b.is_ascii_digit())
}
