//! How answers on the end of a run are printed.
ghost use Rattle.std.specs.Prelude.{◌≡◌, ◌++◌, OnOk, string_bytes};
ghost use Rattle.end_claims.specs.Answers.{answer, stop_word};

use crate::claim::Place;
use std::alloc::AllocError;

/// Puts a place and its value at the end of the text: `[10ac]=3`, `1:x7=-1`, or `0:exit`. An address has no leading
/// zeros, and a value is decimal, with its sign. The only refusal is want of memory.
pub fn put_answer(text: &mut String, place: Place, value: u32) -> Result<(), AllocError>
    ensures { OnOk result (string_bytes text.new ≡ string_bytes text.old ++ answer place value) }
{
    let signed = value.cast_signed();
    match place {
        Place::Word(word) => {
            let address = word as u64 * 4;
            write!(text, "[{address:x}]={signed}")
        }
        Place::Register { core, number } => write!(text, "{core}:x{number}={signed}"),
        Place::Ended(core) => {
            let stop = stop_word(value);
            write!(text, "{core}:{stop}")
        }
    }
}

/// The word for the stop of this number; `total` for numbers from 8 on.
fn stop_word(number: u32) -> &'static str
    ensures { result.now ≡ stop_word number }
{
    match number {
        0 => "exit",
        1 => "break",
        2 => "limit",
        3 => "fetch",
        4 => "illegal",
        5 => "jump",
        6 => "align",
        7 => "address",
        _ => "total",
    }
}
