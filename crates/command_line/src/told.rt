//! What a person is told of words that mean nothing.
ghost use Rattle.std.specs.Prelude.{◌≡◌, ◌≢◌, ◌++◌, IfNone, IfOk, IfSome, None, OnOk, map, slice_get, string_bytes};
ghost use Rattle.std.specs.Option.{option_map};
ghost use Rattle.command_line.specs.Told.{IsTold, fault_line, fault_told, placed, range_begins, values_told, why_told};
ghost use Rattle.command_line.specs.Uses.{option_word};
ghost use Rattle.tool_words.specs.Reading.{meaning};
ghost use Rattle.tool_words.specs.declared.faults.Why.TheVariants.{NoSuchValue, OutOfRange, TooMany};

use crate::uses::{table, use_line};
use rtr_types::INSTRUCTIONS_MAX;
use std::alloc::{AllocError, Global};
use tool_words::{Fault, Name, Why, fault};

/// What a person is told of words that mean nothing: in a line which word is at fault and why, and then how the command
/// is used, or where none was meant how each is. `None` where the words mean a command. The only refusal is want of
/// memory.
pub fn usage_told(alloc: Global, words: &[String]) -> Result<Option<String>, AllocError>
    ensures told { IfOk result (λ told. IfSome told (λ text. IsTold (map string_bytes words.now) (string_bytes text))) }
    ensures none { IfOk result (λ told. IfNone told (meaning (map string_bytes words.now) ≢ None)) }
{
    match fault(words) {
        Some(fault) => Ok(Some(fault_told(alloc, words, fault)?)),
        None => Ok(None),
    }
}

/// The fault's line, and then how commands are used.
fn fault_told(alloc: Global, words: &[String], fault: Fault) -> Result<String, AllocError>
    ensures { IfOk result (λ text. string_bytes text ≡ fault_told (map string_bytes words.now) fault) }
{
    let mut text = fault_line(alloc, words, fault)?;
    match fault {
        Fault::NoCommand | Fault::NotACommand => text.push_str(table())?,
        Fault::InOptions { command, .. } => text.push_str(use_line(command))?,
    }
    Ok(text)
}

/// The word at fault and why, in a line.
pub fn fault_line(alloc: Global, words: &[String], fault: Fault) -> Result<String, AllocError>
    ensures { IfOk result (λ text. string_bytes text ≡ fault_line (map string_bytes words.now) fault) }
{
    match fault {
        Fault::NoCommand => placed(alloc, None, "no command is given"),
        Fault::NotACommand => placed(alloc, word_at(words, 0), "no such command"),
        Fault::InOptions { place, why, .. } => {
            let why = why_told(alloc, why)?;
            placed(alloc, word_at(words, place), why.as_str())
        }
    }
}

/// The word at this place.
fn word_at(words: &[String], place: usize) -> Option<&str>
    ensures { option_map (λ word. word.now) result ≡ slice_get (map string_bytes words.now) place }
{
    match words.get(place) {
        Some(word) => Some(word.as_str()),
        None => None,
    }
}

/// A line with the word at fault, where one is, and why.
fn placed(alloc: Global, word: Option<&str>, why: &str) -> Result<String, AllocError>
    ensures { IfOk result (λ text. string_bytes text ≡ placed (option_map (λ word. word.now) word.entry) why.now) }
{
    let mut text = String::new(alloc);
    match word {
        Some(word) => writeln!(text, "rtr: {word}: {why}")?,
        None => writeln!(text, "rtr: {why}")?,
    }
    Ok(text)
}

/// Why a word can't stand where it stands, or what is missing.
fn why_told(alloc: Global, why: Why) -> Result<String, AllocError>
    ensures { IfOk result (λ text. string_bytes text ≡ why_told why) }
{
    let mut text = String::new(alloc);
    put_why(&mut text, why)?;
    Ok(text)
}

/// Puts the reason down behind the text.
fn put_why(text: &mut String, why: Why) -> Result<(), AllocError>
    ensures { OnOk result (string_bytes text.new ≡ string_bytes text.old ++ why_told why) }
{
    match why {
        Why::NotAnOption => text.push_str("the command has no such option"),
        Why::Twice(name) => put_named(text, name, " is set twice"),
        Why::FlagWithValue(name) => put_named(text, name, " takes no value"),
        Why::OutOfRange {
            option,
            least,
            most,
        } => put_range(text, option, least, most),
        Why::NoNumber(name) => put_named(text, name, " takes a number"),
        Why::NoSuchValue(name) => put_values(text, name),
        Why::TooMany => put_most(text),
        Why::NoImage => text.push_str("the shape has no image of the number"),
        Why::NoValue(name) => put_named(text, name, " lacks its value"),
        Why::Lacks(name) => put_named(text, name, " is missing"),
    }
}

/// Puts an option down, and what is wrong with it.
fn put_named(text: &mut String, name: Name, wrong: &str) -> Result<(), AllocError>
    ensures { OnOk result (string_bytes text.new ≡ string_bytes text.old ++ (option_word name ++ wrong.now)) }
{
    text.push_str(option_word(name))?;
    text.push_str(wrong)
}

/// Puts an option down, and from where to where its numbers go.
fn put_range(text: &mut String, option: Name, least: u64, most: u64) -> Result<(), AllocError>
    ensures { OnOk result (string_bytes text.new ≡ string_bytes text.old
        ++ why_told (OutOfRange option least most)) }
{
    write!(
        text,
        "{}{}{least} to {most}",
        option_word(option),
        range_begins(option)
    )
}

/// Puts an option down, and its values.
fn put_values(text: &mut String, name: Name) -> Result<(), AllocError>
    ensures { OnOk result (string_bytes text.new ≡ string_bytes text.old ++ why_told (NoSuchValue name)) }
{
    write!(text, "{} takes {}", option_word(name), values_told(name))
}

/// Puts the most instructions down that all cores may be given.
fn put_most(text: &mut String) -> Result<(), AllocError>
    ensures { OnOk result (string_bytes text.new ≡ string_bytes text.old ++ why_told TooMany) }
{
    write!(
        text,
        "the cores times the limit are more than {INSTRUCTIONS_MAX}"
    )
}

/// The word that names an option.
fn option_word(name: Name) -> &'static str
    ensures { result.now ≡ option_word name }
{
    match name {
        Name::Cores => "--cores",
        Name::Limit => "--limit",
        Name::Words => "--words",
        Name::Choices => "--choices",
        Name::Seed => "--seed",
        Name::Log => "--log",
        Name::Shape => "--shape",
        Name::Number => "--number",
        Name::Core => "--core",
        Name::Count => "--count",
        Name::Threads => "--threads",
        Name::Loads => "--loads",
        Name::Elf => "--elf",
        Name::Latest => "--latest",
        Name::Certified => "--certify",
    }
}

/// What comes before an option's range.
fn range_begins(name: Name) -> &'static str
    ensures { result.now ≡ range_begins name }
{
    match name {
        Name::Words => " takes a multiple of 4 from ",
        _ => " takes ",
    }
}

/// The values of an option that aren't numbers.
fn values_told(name: Name) -> &'static str
    ensures { result.now ≡ values_told name }
{
    match name {
        Name::Choices => "pairs of the digits 0 to 9 and a to f",
        Name::Log => "reduced or regulated",
        _ => "mix or lock",
    }
}
