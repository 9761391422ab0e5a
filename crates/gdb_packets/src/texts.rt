//! Parts of a text.
ghost use Rattle.std.specs.Prelude.{◌≡◌, ◌<◌, IfSome, length};
ghost use Rattle.std.specs.Option.{option_map};
ghost use Rattle.std.specs.Str.{bytes_eq};
ghost use Rattle.gdb_packets.specs.Texts.{behind, cut_at};

/// Whether the text is this word.
pub fn is(text: &[u8], word: &str) -> bool
    ensures { result ≡ bytes_eq text.now word.now }
{
    text == word.as_bytes()
}

/// What stands behind these bytes, where the text begins with them.
pub fn behind<'a>(text: &'a [u8], head: &str) -> Option<&'a [u8]>
    ensures { option_map (λ rest. rest.now) result ≡ behind text.now head.now }
{
    text.strip_prefix(head.as_bytes())
}

/// What stands before the first such byte, and behind it; `None` where there is no such byte.
pub fn cut_at(byte: u8, text: &[u8]) -> Option<(&[u8], &[u8])>
    ensures parts { option_map (λ p. (p.0.now, p.1.now)) result ≡ cut_at byte text.now }
    ensures shorter { IfSome result (λ p. length p.1.now < length text.now) }
{
    for (i, b) in text.iter().enumerate() {
        if *b == byte {
            return Some((&text[..i], &text[i + 1..]));
        }
    }
    None
}
