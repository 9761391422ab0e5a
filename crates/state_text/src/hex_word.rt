//! Words in hexadecimal.
ghost use Rattle.std.specs.Prelude.{Some};
ghost use Rattle.state_text.specs.Pieces.{hex_word};

use std::fmt;

/// A word that is printed as eight lower-case hexadecimal digits.
#[derive(Clone, Copy)]
pub(crate) struct HexWord(pub u32);

impl fmt::Display for HexWord {
    ghost output = { λ word. Some (hex_word word.0) };

    fn fmt<W: fmt::Write>(&self, f: &mut fmt::Formatter<W>) -> fmt::Result {
        let word = self.0;
        write!(f, "{word:08x}")
    }
}
