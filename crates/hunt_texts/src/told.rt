//! What a person is told of words that ask for nothing.
ghost use Rattle.std.specs.Prelude.{◌≡◌, ◌≢◌, IfNone, IfOk, IfSome, None, map, slice_get, string_bytes};
ghost use Rattle.std.specs.Option.{option_map};
ghost use Rattle.hunt_words.specs.Meaning.{meaning};
ghost use Rattle.hunt_texts.specs.Told.{IsTold, fault_line, fault_told, missing_told, placed, range_begins};
ghost use Rattle.hunt_texts.specs.Told.{values_told, why_told};

use crate::uses::{table, use_line};
use hunt_words::{Fault, Missing, Name, Verb, Why, fault};
use rtr_types::INSTRUCTIONS_MAX;
use std::alloc::{AllocError, Global};

/// What a person is told of words that ask for nothing: in a line which word is at fault and why, and then how the verb
/// is used, or where none was meant how each is. `None` where the words ask for something. The only refusal is want of
/// memory.
pub fn usage_told(alloc: Global, words: &[String]) -> Result<Option<String>, AllocError>
    ensures told { IfOk result (λ told. IfSome told (λ text. IsTold (map string_bytes words.now) (string_bytes text))) }
    ensures none { IfOk result (λ told. IfNone told (meaning (map string_bytes words.now) ≢ None)) }
{
    match fault(alloc, words)? {
        Some(fault) => Ok(Some(fault_told(alloc, words, fault)?)),
        None => Ok(None),
    }
}

/// The fault's line, and then how verbs are used.
fn fault_told(alloc: Global, words: &[String], fault: Fault) -> Result<String, AllocError>
    ensures { IfOk result (λ text. string_bytes text ≡ fault_told (map string_bytes words.now) fault) }
{
    let mut text = fault_line(alloc, words, fault)?;
    match fault {
        Fault::NoVerb | Fault::NotAVerb => text.push_str(table())?,
        Fault::InOptions { verb, .. } => text.push_str(use_line(verb))?,
    }
    Ok(text)
}

/// The word at fault and why, in a line.
fn fault_line(alloc: Global, words: &[String], fault: Fault) -> Result<String, AllocError>
    ensures { IfOk result (λ text. string_bytes text ≡ fault_line (map string_bytes words.now) fault) }
{
    match fault {
        Fault::NoVerb => placed(alloc, None, "no command is given"),
        Fault::NotAVerb => placed(alloc, word_at(words, 0), "no such command"),
        Fault::InOptions { verb, place, why } => {
            let why = why_told(alloc, verb, why)?;
            placed(alloc, word_at(words, place), why.as_str())
        }
    }
}

/// The word at this place.
fn word_at(words: &[String], place: usize) -> Option<&str>
    ensures { option_map (λ word. word.now) result ≡ slice_get (map string_bytes words.now) place }
{
    match words.get(place) {
        Some(word) => Some(word.as_str()),
        None => None,
    }
}

/// A line with the word at fault, where one is, and why.
fn placed(alloc: Global, word: Option<&str>, why: &str) -> Result<String, AllocError>
    ensures { IfOk result (λ text. string_bytes text ≡ placed (option_map (λ word. word.now) word.entry) why.now) }
{
    let mut text = String::new(alloc);
    match word {
        Some(word) => writeln!(text, "rtr: {word}: {why}")?,
        None => writeln!(text, "rtr: {why}")?,
    }
    Ok(text)
}

/// Why a word can't stand where it stands, or what is missing.
fn why_told(alloc: Global, verb: Verb, why: Why) -> Result<String, AllocError>
    ensures { IfOk result (λ text. string_bytes text ≡ why_told verb why) }
{
    let mut text = String::new(alloc);
    match why {
        Why::NotAnOption => write!(text, "the command has no such option")?,
        Why::FlagWithValue(name) => write!(text, "{} takes no value", name.word())?,
        Why::Twice(name) => write!(text, "{} is set twice", name.word())?,
        Why::AtOdds(one, other) => write!(
            text,
            "{} and {} don't go together",
            one.word(),
            other.word()
        )?,
        Why::NoValue(name) => write!(text, "{} lacks its value", name.word())?,
        Why::OutOfRange {
            option,
            least,
            most,
        } => {
            write!(
                text,
                "{}{}{least} to {most}",
                option.word(),
                range_begins(option)
            )?
        }
        Why::NoNumber(name) => write!(text, "{} takes a number", name.word())?,
        Why::NoSuchValue(name) => write!(text, "{} takes {}", name.word(), values_told(name))?,
        Why::TooMany => write!(
            text,
            "the cores times the limit are more than {INSTRUCTIONS_MAX}"
        )?,
        Why::NoMachine => write!(
            text,
            "no machine with these options has each core and word that is named"
        )?,
        Why::Lacks(missing) => text.push_str(missing_told(verb, missing))?,
    }
    Ok(text)
}

/// What comes before an option's range.
fn range_begins(name: Name) -> &'static str
    ensures { result.now ≡ range_begins name }
{
    match name {
        Name::Words => " takes a multiple of 4 from ",
        _ => " takes ",
    }
}

/// The values of an option that aren't numbers.
fn values_told(name: Name) -> &'static str
    ensures { result.now ≡ values_told name }
{
    match name {
        Name::By => "seed, few, walk, pct1 to pct9, mixed or all",
        Name::Runs => "A..B, where A is at most B",
        Name::Turns => "- for none, or turns as 0*4,w1*2",
        Name::Same | Name::See => "places as [40],0:x5,1:stop or stops",
        _ => "a claim as [40]=2,all:exit|0:x5<[44]",
    }
}

/// What a verb lacks.
fn missing_told(verb: Verb, missing: Missing) -> &'static str
    ensures { result.now ≡ missing_told verb missing }
{
    match missing {
        Missing::Demand => match verb {
            Verb::First => "--expect, --never or --same is missing",
            Verb::Table => "--see, --expect or --never is missing",
            _ => "--expect or --never is missing",
        },
        Missing::ARun => "--run or --turns is missing",
        Missing::Number => "--run is missing",
        Missing::Cores => "a run has one core by default, and more are named: --cores is missing",
        Missing::Words => "a word is named that there isn't by default: --words is missing",
    }
}
