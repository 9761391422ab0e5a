//! The words of a text.
ghost use Rattle.std.specs.Prelude.{◌≡◌, ◌∷◌, ◌++◌, [], IfOk, OnOk};
ghost use Rattle.gdb_commands.specs.Words.{words_in, words_of};

use gdb_packets::cut_at;
use rtr_types::Items;
use std::alloc::{AllocError, Global};

/// The words of a text: what stands between spaces.
pub(crate) fn words_of(alloc: Global, text: &[u8]) -> Result<Items<Items<u8>>, AllocError>
    ensures { IfOk result (λ words. words ≡ words_of text.now) }
{
    let mut words = Items::new(alloc);
    let mut rest = text;
    while let Some((front, more)) = cut_at(b' ', rest) {
        put_word(alloc, &mut words, front)?;
        rest = more;
    }
    put_word(alloc, &mut words, rest)?;
    Ok(words)
}

/// Puts a piece behind others, if it is a word.
fn put_word(alloc: Global, words: &mut Items<Items<u8>>, piece: &[u8]) -> Result<(), AllocError>
    ensures { OnOk result (words.new ≡ words.old ++ words_in (piece.now ∷ [])) }
{
    if piece.is_empty() {
        return Ok(());
    }
    words.push(Items::from_vec(Vec::from_slice(alloc, piece)?))
}
