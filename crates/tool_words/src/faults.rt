//! What is wrong with words that mean nothing.
ghost use Rattle.std.specs.Prelude.{◌≡◌};
ghost use Rattle.tool_words.specs.Faults.{place_of};

use crate::command::Verb;
use crate::options::Name;

/// Where words that mean nothing stop leading to a command, and why.
#[derive(Clone, Copy)]
pub enum Fault {
    /// There are no words.
    NoCommand,
    /// The first word names no command.
    NotACommand,
    /// The words are this command and options, up to the word at `place`, counted from 0 with the command: it can't stand
    /// there. Where `place` is the number of words, each may stand where it stands, and something is missing behind them.
    InOptions {
        command: Verb,
        place: usize,
        why: Why,
    },
}

impl Fault {
    /// The place of the word that can't stand where it stands, from 0; the number of words where none is at fault.
    pub fn place(&self) -> usize
        ensures { result ≡ place_of self.now }
    {
        match self {
            Fault::NoCommand | Fault::NotACommand => 0,
            Fault::InOptions { place, .. } => *place,
        }
    }
}

/// Why a word can't stand where it stands, or what is missing behind the last one.
#[derive(Clone, Copy)]
pub enum Why {
    /// The command takes no option that the word names.
    NotAnOption,
    /// The word names an option that the words before have set.
    Twice(Name),
    /// The word gives a value to a flag, which has none.
    FlagWithValue(Name),
    /// The value is a number in form, but not from `least` to `most`, or no multiple of a block's four words.
    OutOfRange { option: Name, least: u64, most: u64 },
    /// The value is no number: decimal digits without a sign or a leading zero.
    NoNumber(Name),
    /// The value is none of the option's, which aren't numbers.
    NoSuchValue(Name),
    /// With this word the cores times the limit are more than `INSTRUCTIONS_MAX`.
    TooMany,
    /// With this word the shape has no image of the number.
    NoImage,
    /// The last word names an option, whose value is missing.
    NoValue(Name),
    /// The command must have this option, and lacks it.
    Lacks(Name),
}
