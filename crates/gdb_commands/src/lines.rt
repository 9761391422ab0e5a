//! Lines that are told.
ghost use Rattle.std.specs.Prelude.{◌≡◌, ◌++◌, IfOk, OnOk, string_bytes};
ghost use Rattle.gdb_commands.specs.Lines.{counts_text, line};

use rtr_types::Items;
use std::alloc::{AllocError, Global};

/// What a command is answered.
pub type Told = Result<Items<u8>, AllocError>;

/// That a part of a text was put.
pub type Put = Result<(), AllocError>;

/// A text's bytes.
pub fn bytes_of(text: String) -> Items<u8>
    ensures { result ≡ string_bytes text }
{
    Items::from_vec(text.into_bytes())
}

/// A line of this text. It is refused for want of memory alone.
pub fn line(alloc: Global, words: &str) -> Told
    ensures { IfOk result (λ text. text ≡ line words.now) }
{
    let mut text = Vec::new(alloc);
    text.extend_from_slice(words.as_bytes())?;
    text.push(b'\n')?;
    Ok(Items::from_vec(text))
}

/// Puts counts, each behind a space.
pub fn put_counts(text: &mut String, counts: &[u32]) -> Put
    ensures { OnOk result (string_bytes text.new ≡ string_bytes text.old ++ counts_text counts.now) }
{
    for count in counts {
        write!(text, " {count}")?;
    }
    Ok(())
}
