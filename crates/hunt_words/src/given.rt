//! The options that words give, as texts.
ghost use Rattle.std.specs.Prelude.{◌≡◌, ◌∷◌, ◌≤◌, IfNone, IfOk, IfSome, None, length, map, string_bytes};
ghost use Rattle.std.specs.List.{before_first};
ghost use Rattle.std.specs.Option.{option_map};
ghost use Rattle.tool_words.specs.Reading.{is_equals};
ghost use Rattle.tool_words.specs.Stops.{joined_value};
ghost use Rattle.hunt_words.specs.Given.{alone, are_each_once, given_in, has_option, text_at, valued};
ghost use Rattle.hunt_words.specs.Seen.{all_seen, seen};

use crate::verbs::Verb;
use std::alloc::{AllocError, Global};

/// An option by its word, and the text of its value, which is empty for a flag.
#[derive(Clone, Copy)]
pub(crate) struct Given<'a> {
    pub(crate) name: &'a str,
    pub(crate) text: &'a str,
}

/// The options that the words behind a verb give; `None` where they give none. The only refusal is want of memory.
pub(crate) fn given_in<'a>(
    alloc: Global,
    verb: Verb,
    words: &'a [String],
) -> Result<Option<Vec<Given<'a>>>, AllocError>
    ensures { IfOk result (λ given. option_map (λ list. all_seen list.items) given
        ≡ given_in verb (map string_bytes words.now)) }
{
    let mut given = Vec::new(alloc);
    let mut left = words;
    while let Some((word, rest)) = left.split_first() {
        match first_given(verb, word.as_str(), rest) {
            Some((one, more)) => {
                given.push(one)?;
                left = more;
            }
            None => return Ok(None),
        }
    }
    Ok(Some(given))
}

/// The option that begins with this word, and the words after it. Its value is joined to the word, or is the first of
/// the words that follow.
fn first_given<'a>(
    verb: Verb,
    word: &'a str,
    rest: &'a [String],
) -> Option<(Given<'a>, &'a [String])>
    ensures some { IfSome result (λ r. given_in verb (word.now ∷ map string_bytes rest.now)
        ≡ option_map (λ more. seen r.0 ∷ more) (given_in verb (map string_bytes r.1.now))) }
    ensures shorter { IfSome result (λ r. length r.1.now ≤ length rest.now) }
    ensures none { IfNone result (given_in verb (word.now ∷ map string_bytes rest.now) ≡ None) }
{
    match alone(verb, word) {
        Some(one) => Some((one, rest)),
        None => named(verb, word, rest),
    }
}

/// The option whose name this word is and whose value the word after it, and the words after both.
#[tactic(auto, using(crate::proofs::GivenLemmas::given_pair))]
fn named<'a>(verb: Verb, word: &'a str, rest: &'a [String]) -> Option<(Given<'a>, &'a [String])>
    requires { alone verb word.now ≡ None }
    ensures some { IfSome result (λ r. given_in verb (word.now ∷ map string_bytes rest.now)
        ≡ option_map (λ more. seen r.0 ∷ more) (given_in verb (map string_bytes r.1.now))) }
    ensures shorter { IfSome result (λ r. length r.1.now ≤ length rest.now) }
    ensures none { IfNone result (given_in verb (word.now ∷ map string_bytes rest.now) ≡ None) }
{
    match rest.split_first() {
        Some((next, after)) => match valued(verb, word, next.as_str()) {
            Some(one) => Some((one, after)),
            None => None,
        },
        None => None,
    }
}

/// The option that a word makes by itself: a flag, or a name and its value joined by the first `=`.
fn alone(verb: Verb, word: &str) -> Option<Given<'_>>
    ensures { option_map seen result ≡ alone verb word.now }
{
    match split(word) {
        (name, Some(text)) => valued(verb, name, text),
        (name, None) if verb.is_flag(name) => Some(Given { name, text: "" }),
        _ => None,
    }
}

/// The option of this name with this value, where the verb takes one of the name with a value.
fn valued<'a>(verb: Verb, name: &'a str, text: &'a str) -> Option<Given<'a>>
    ensures { option_map seen result ≡ valued verb name.now text.now }
{
    if verb.takes_value(name) {
        Some(Given { name, text })
    } else {
        None
    }
}

/// The name of an option in a word, and the value that `=` joins to it.
pub(crate) fn split(word: &str) -> (&str, Option<&str>)
    ensures name { result.0.now ≡ before_first is_equals word.now }
    ensures value { option_map (λ text. text.now) result.1 ≡ joined_value word.now }
{
    match word.split_once('=') {
        Some((name, text)) => (name, Some(text)),
        None => (word, None),
    }
}

/// The text of the option of this name, where it is given.
pub(crate) fn text_at<'a>(given: &[Given<'a>], name: &str) -> Option<&'a str>
    ensures { option_map (λ text. text.now) result ≡ text_at name.now (all_seen given.now) }
{
    for k in 0..given.len() {
        if given[k].name == name {
            return Some(given[k].text);
        }
    }
    None
}

/// Whether the option of this name is given.
pub(crate) fn has_option(given: &[Given<'_>], name: &str) -> bool
    ensures { result ≡ has_option name.now (all_seen given.now) }
{
    text_at(given, name).is_some()
}

/// Whether no option is given twice.
pub(crate) fn are_each_once(given: &[Given<'_>]) -> bool
    ensures { result ≡ are_each_once (all_seen given.now) }
{
    for k in 0..given.len() {
        if has_option(&given[k + 1..], given[k].name) {
            return false;
        }
    }
    true
}
