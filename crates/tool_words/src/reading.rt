//! From words to settings, one after the other.
ghost use Rattle.std.specs.Prelude.{◌≡◌, ◌≢◌, ℕ, ◌+◌, ◌<◌, drop, IfErr, IfNone, IfOk, IfSome, None, OnErr, Some, length, map};
ghost use Rattle.std.specs.Prelude.{string_bytes};
ghost use Rattle.std.specs.List.{before_first};
ghost use Rattle.std.specs.Option.{option_map};
ghost use Rattle.tool_words.specs.Commands.{command_of};
ghost use Rattle.tool_words.specs.Faults.{IsFaultAt, IsOpen, Tells, place_of};
ghost use Rattle.tool_words.specs.Stops.{IsWhole, Sets, Stops, StopsAfter, joined_value, unset, value_of};
ghost use Rattle.tool_words.specs.Options.{no_settings};
ghost use Rattle.tool_words.specs.Reading.{FittingLaw, is_equals, meaning, settled_by};
ghost use Rattle.tool_words.specs.Settings.{seen};

use crate::command::{Command, Verb};
use crate::faults::{Fault, Why};
use crate::options::{Name, Settings};
use std::alloc::{AllocError, Global};

/// The command that the words mean, or `None`. The first word is the command; options follow in any
/// order, each at most once, as `--name value` or `--name=value`, and a flag as `--name`. The word after
/// `--name` is its value, whatever it begins with. Names are exact, the cores times the limit are at most
/// `INSTRUCTIONS_MAX`, `gen` and `soak` have both a shape and a number of which the shape has an image, `at` has both a
/// core and a count, and every other list of words, among them the empty one, means nothing. The only refusal is want
/// of memory, for the choice bytes of a command, and so never where the words mean nothing.
pub fn meaning(alloc: Global, words: &[String]) -> Result<Option<Command>, AllocError>
    ensures value { IfOk result (λ command. command ≡ meaning (map string_bytes words.now)) }
    ensures meaningful { OnErr result (meaning (map string_bytes words.now) ≢ None) }
{
    match read(words) {
        Ok((verb, settings)) => verb.command(alloc, &settings),
        Err(_) => Ok(None),
    }
}

/// What is wrong with words that mean nothing: the first word that no list of words which means a command has there, or
/// the end, where each word may stand where it stands; and why. `None` where the words mean a command.
pub fn fault(words: &[String]) -> Option<Fault>
    ensures first { IfSome result (λ f. IsFaultAt (map string_bytes words.now) (place_of f)) }
    ensures why { IfSome result (λ f. Tells (map string_bytes words.now) f) }
    ensures none { IfNone result (meaning (map string_bytes words.now) ≢ None) }
{
    read(words).err()
}

/// The parameters of every command that words mean lie in their ranges, the shape that it names has an image of its
/// number, the instruction that it names has a core below `CORES_MAX` and a count from 1 to `LIMIT_MAX`, and there are
/// 1 to `THREADS_MAX` threads, where the words have a number of them.
pub fn what_words_mean_fits()
    ensures { FittingLaw }
{}

/// The command's name and what its options are set to; or what is wrong with the words.
fn read(words: &[String]) -> Result<(Verb, Settings<'_>), Fault>
    ensures ok { IfOk result (λ r. (meaning (map string_bytes words.now) ≡ command_of r.0 (seen r.1))
        × (command_of r.0 (seen r.1) ≢ None)) }
    ensures err { IfErr result (λ f. IsFaultAt (map string_bytes words.now) (place_of f)
        × Tells (map string_bytes words.now) f) }
{
    let (first, rest) = match words.split_first() {
        Some(parts) => parts,
        None => return Err(Fault::NoCommand),
    };
    let command = match Verb::named(first.as_str()) {
        Some(command) => command,
        None => return Err(Fault::NotACommand),
    };
    match read_options(command, rest) {
        Ok(settings) => Ok((command, settings)),
        Err(stop) => Err(Fault::InOptions {
            command,
            place: stop.place + 1,
            why: stop.why,
        }),
    }
}

/// Where the words after a command stop, from 0, and why.
#[derive(Clone, Copy)]
struct Stop {
    place: usize,
    why: Why,
}

/// What the words after the command set; or where they stop.
fn read_options(verb: Verb, words: &[String]) -> Result<Settings<'_>, Stop>
    ensures ok { IfOk result (λ s. IsWhole verb (map string_bytes words.now) (seen s)) }
    ensures err { IfErr result (λ stop. StopsAfter verb (map string_bytes words.now) stop.place stop.why) }
{
    let settings = read_settings(verb, words)?;
    match verb.lacks(&settings) {
        Some(name) => Err(Stop {
            place: words.len(),
            why: Why::Lacks(name),
        }),
        None => Ok(settings),
    }
}

/// What the words after the command set, one setting after the other; or where they stop.
fn read_settings(verb: Verb, words: &[String]) -> Result<Settings<'_>, Stop>
    ensures ok { IfOk result (λ s. (settled_by verb no_settings (map string_bytes words.now) ≡ Some (seen s))
        × IsOpen (seen s)) }
    ensures err { IfErr result (λ stop. StopsAfter verb (map string_bytes words.now) stop.place stop.why) }
{
    let mut settings = Settings::none();
    let mut next = 0;
    while next < words.len() {
        let (more, after) = put_at(verb, settings, words, next)?;
        settings = more;
        next = after;
    }
    Ok(settings)
}

/// The settings with the one that begins at this word, and the word after it; or where they stop.
fn put_at<'a>(
    verb: Verb,
    settings: Settings<'a>,
    words: &'a [String],
    next: usize,
) -> Result<(Settings<'a>, usize), Stop>
    requires { next < length words.now }
    ensures ok { IfOk result (λ r. (used : ℕ) × (r.1 ≡ next + used)
        × Sets verb (seen settings.entry) (map string_bytes (drop next words.now)) (seen r.0) used) }
    ensures err { IfErr result (λ stop. (offset : ℕ) × (stop.place ≡ next + offset)
        × Stops verb (seen settings.entry) (map string_bytes (drop next words.now)) offset stop.why) }
{
    match put_next(verb, settings, &words[next..]) {
        Ok((more, used)) => Ok((more, next + used)),
        Err(stop) => Err(Stop {
            place: next + stop.place,
            why: stop.why,
        }),
    }
}

/// The settings with the one that the words begin with, and how many words it took: one, or a name and its value; or
/// where among these words they stop.
fn put_next<'a>(
    verb: Verb,
    settings: Settings<'a>,
    words: &'a [String],
) -> Result<(Settings<'a>, usize), Stop>
    requires { 0 < length words.now }
    ensures ok { IfOk result (λ r. Sets verb (seen settings.entry) (map string_bytes words.now) (seen r.0) r.1) }
    ensures err { IfErr result (λ stop. Stops verb (seen settings.entry) (map string_bytes words.now) stop.place
        stop.why) }
{
    let (option, joined) = split(words[0].as_str());
    let name = match unset(verb, &settings, option) {
        Ok(name) => name,
        Err(why) => return Err(Stop { place: 0, why }),
    };
    let (text, used) = match value_of(name, joined, &words[1..]) {
        Ok(value) => value,
        Err(stop) => return Err(stop),
    };
    match settings.with(name, text) {
        Ok(more) => Ok((more, used)),
        Err(why) => Err(Stop {
            place: used - 1,
            why,
        }),
    }
}

/// The name of an option in a word, and the value that `=` joins to it.
fn split(word: &str) -> (&str, Option<&str>)
    ensures name { result.0.now ≡ before_first is_equals word.now }
    ensures value { option_map (λ text. text.now) result.1 ≡ joined_value word.now }
{
    match word.split_once('=') {
        Some((name, text)) => (name, Some(text)),
        None => (word, None),
    }
}

/// The option of the command that this word names, which isn't set.
fn unset(verb: Verb, settings: &Settings, option: &str) -> Result<Name, Why>
    ensures { result ≡ unset verb (seen settings.now) option.now }
{
    match Name::of(verb, option) {
        None => Err(Why::NotAnOption),
        Some(name) if settings.is_set(name) => Err(Why::Twice(name)),
        Some(name) => Ok(name),
    }
}

/// The text of an option's value, which is empty for a flag, and how many words the option and its value are: the value is
/// joined to the name, or the first of the words that follow. Otherwise where they stop.
fn value_of<'a>(
    name: Name,
    joined: Option<&'a str>,
    following: &'a [String],
) -> Result<(&'a str, usize), Stop>
    ensures ok { IfOk result (λ r. value_of name (option_map (λ text. text.now) joined.entry)
        (map string_bytes following.now) ≡ Ok (r.0.now, r.1)) }
    ensures err { IfErr result (λ stop. value_of name (option_map (λ text. text.now) joined.entry)
        (map string_bytes following.now) ≡ Err (stop.place, stop.why)) }
{
    match (name.takes_value(), joined) {
        (true, Some(text)) => Ok((text, 1)),
        (true, None) => match following.first() {
            Some(text) => Ok((text.as_str(), 2)),
            None => Err(Stop {
                place: 1,
                why: Why::NoValue(name),
            }),
        },
        (false, None) => Ok(("", 1)),
        (false, Some(_)) => Err(Stop {
            place: 0,
            why: Why::FlagWithValue(name),
        }),
    }
}
