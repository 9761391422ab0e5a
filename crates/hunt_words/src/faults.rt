//! What is wrong with words that ask for nothing.
ghost use Rattle.std.specs.Prelude.{◌≡◌};
ghost use Rattle.hunt_words.specs.Faults.{place_of};

use crate::names::Name;
use crate::verbs::Verb;

/// Where words that ask for nothing stop leading to a hunt, and why.
#[derive(Clone, Copy)]
pub enum Fault {
    /// There are no words.
    NoVerb,
    /// The first word is no verb.
    NotAVerb,
    /// The words are this verb and options, up to the word at `place`, counted from 0 with the verb: it can't stand
    /// there. Where `place` is the number of words, each may stand where it stands, and something is missing behind
    /// them.
    InOptions { verb: Verb, place: usize, why: Why },
}

impl Fault {
    /// The place of the word that can't stand where it stands, from 0; the number of words where none is at fault.
    pub fn place(&self) -> usize
        ensures { result ≡ place_of self.now }
    {
        match self {
            Fault::NoVerb | Fault::NotAVerb => 0,
            Fault::InOptions { place, .. } => *place,
        }
    }
}

/// Why a word can't stand where it stands, or what is missing behind the last one.
#[derive(Clone, Copy)]
pub enum Why {
    /// The verb takes no option that the word names.
    NotAnOption,
    /// The word gives a value to a flag, which has none.
    FlagWithValue(Name),
    /// The words before have the option already.
    Twice(Name),
    /// With this word both options are given, which don't go together.
    AtOdds(Name, Name),
    /// The last word names an option, whose value is missing.
    NoValue(Name),
    /// The value is a number in form, but not from `least` to `most`, or no multiple of a block's four words.
    OutOfRange { option: Name, least: u64, most: u64 },
    /// The value is no number: decimal digits without a sign or a leading zero.
    NoNumber(Name),
    /// The value is none of the option's, which aren't numbers.
    NoSuchValue(Name),
    /// With this word the cores times the limit are more than `INSTRUCTIONS_MAX`.
    TooMany,
    /// With this word no machine that the options allow has each core and word that they name.
    NoMachine,
    /// Something is missing.
    Lacks(Missing),
}

/// What is missing behind words that may each stand where they stand.
#[derive(Clone, Copy)]
pub enum Missing {
    /// What is demanded of the runs, or in a table what is seen of them.
    Demand,
    /// Which run it is.
    ARun,
    /// The number of a run by the policy that is given.
    Number,
    /// The cores, of which one alone isn't all that are named.
    Cores,
    /// The words of memory, of which a memory whose words aren't given hasn't all that are named.
    Words,
}
