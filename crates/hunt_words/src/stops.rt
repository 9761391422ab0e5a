//! Where words that ask for nothing stop leading to a hunt.
ghost use Rattle.std.specs.Prelude.{◌≡◌, ◌≢◌, ◌<◌, ℕ, List, ◌∷◌, [], ◌++◌, IfErr, IfNone, IfOk, IfSome, None, false};
ghost use Rattle.std.specs.Prelude.{length, map, string_bytes};
ghost use Rattle.std.specs.Option.{option_map};
ghost use Rattle.hunt_words.specs.Faults.{IsFaultAt, IsMissing, Tells, place_of};
ghost use Rattle.hunt_words.specs.Meaning.{hunt_by, hunt_of, meaning};
ghost use Rattle.hunt_words.specs.Open.{has, odd_pair, one};
ghost use Rattle.hunt_words.specs.Seen.{all_seen};
ghost use Rattle.hunt_words.specs.Stops.{Clashes, IsCut, IsNext, IsTaken, IsUntaken, Stops, StopsAfter, value_of};

use crate::faults::{Fault, Missing, Why};
use crate::given::{Given, split};
use crate::names::Name;
use crate::open::{has, has_machine, lacks, odd_pair, suits};
use crate::reading::hunt_of;
use crate::refusals::refusal_of;
use crate::verbs::Verb;
use std::alloc::{AllocError, Global};
use tool_words::CORES_DEFAULT;

/// What is wrong with words that ask for nothing: the first word that no list of words which asks for something has
/// there, or the end, where each word may stand where it stands; and why. `None` where the words ask for something. The
/// only refusal is want of memory.
pub fn fault(alloc: Global, words: &[String]) -> Result<Option<Fault>, AllocError>
    ensures first { IfOk result (λ found. IfSome found (λ f. IsFaultAt (map string_bytes words.now) (place_of f))) }
    ensures why { IfOk result (λ found. IfSome found (λ f. Tells (map string_bytes words.now) f)) }
    ensures none { IfOk result (λ found. IfNone found (meaning (map string_bytes words.now) ≢ None)) }
{
    let (first, rest) = match words.split_first() {
        Some(parts) => parts,
        None => return Ok(Some(Fault::NoVerb)),
    };
    let verb = match Verb::named(first.as_str()) {
        Some(verb) => verb,
        None => return Ok(Some(Fault::NotAVerb)),
    };
    match stop_in(alloc, verb, rest)? {
        Some(stop) => Ok(Some(Fault::InOptions {
            verb,
            place: stop.place + 1,
            why: stop.why,
        })),
        None => Ok(None),
    }
}

/// Where words behind a verb stop, from 0, and why.
#[derive(Clone, Copy)]
struct Stop {
    place: usize,
    why: Why,
}

/// An option that words begin with, the text of its value, which is empty for a flag, and how many words both are.
#[derive(Clone, Copy)]
struct Next<'a> {
    name: Name,
    text: &'a str,
    used: usize,
}

/// Where the words behind the verb stop; `None` where they ask for something.
fn stop_in(alloc: Global, verb: Verb, words: &[String]) -> Result<Option<Stop>, AllocError>
    ensures some { IfOk result (λ stop. IfSome stop (λ s.
        StopsAfter verb (map string_bytes words.now) s.place s.why)) }
    ensures none { IfOk result (λ stop. IfNone stop (hunt_by verb (map string_bytes words.now) ≢ None)) }
{
    let mut given = Vec::new(alloc);
    let mut read = 0;
    while read < words.len() {
        let next = match next_option(verb, given.as_slice(), &words[read..]) {
            Ok(next) => next,
            Err(stop) => return Ok(Some(Stop {
                place: read + stop.place,
                why: stop.why,
            })),
        };
        given.push(Given {
            name: next.name.word(),
            text: next.text,
        })?;
        if !has_machine(alloc, verb, given.as_slice())? {
            return Ok(Some(Stop {
                place: read + next.used - 1,
                why: refusal_of(alloc, given.as_slice(), next.name, next.text)?,
            }));
        }
        read += next.used;
    }
    stop_at_end(alloc, verb, given.as_slice(), words)
}

/// The option that the words begin with, which goes together with those that are given; or where they stop.
fn next_option<'a>(verb: Verb, given: &[Given<'_>], words: &'a [String]) -> Result<Next<'a>, Stop>
    requires { 0 < length words.now }
    ensures ok { IfOk result (λ n. IsNext verb (all_seen given.now) (map string_bytes words.now) n.name n.text.now
        n.used) }
    ensures err { IfErr result (λ stop. Stops verb (all_seen given.now) (map string_bytes words.now) stop.place
        stop.why) }
{
    let (option, joined) = split(words[0].as_str());
    let name = match taken(verb, option, joined) {
        Ok(name) => name,
        Err(why) => return Err(Stop { place: 0, why }),
    };
    if let Some(why) = clash(verb, given, name) {
        return Err(Stop { place: 0, why });
    }
    match value_of(verb, option, joined, &words[1..]) {
        Some((text, used)) => Ok(Next { name, text, used }),
        None => Err(Stop {
            place: 1,
            why: Why::NoValue(name),
        }),
    }
}

/// The option of this name, which the verb takes, with a value joined to it or without; or why there is none.
#[tactic(auto, using(crate::proofs::OptionNames::taken_named))]
fn taken(verb: Verb, option: &str, joined: Option<&str>) -> Result<Name, Why>
    ensures ok { IfOk result (λ name. IsTaken verb option.now (option_map (λ t. t.now) joined.entry) name) }
    ensures err { IfErr result (λ why. IsUntaken verb option.now (option_map (λ t. t.now) joined.entry) why) }
{
    let is_valued = verb.takes_value(option);
    if !is_valued && !verb.is_flag(option) {
        return Err(Why::NotAnOption);
    }
    match Name::named(option) {
        Some(name) if !is_valued && joined.is_some() => Err(Why::FlagWithValue(name)),
        Some(name) => Ok(name),
        None => Err(Why::NotAnOption),
    }
}

/// Why the option can't follow those that are given.
fn clash(verb: Verb, given: &[Given<'_>], name: Name) -> Option<Why>
    ensures some { IfSome result (λ why. Clashes verb (all_seen given.now) name why) }
    ensures none { IfNone result ((has name (all_seen given.now) ≡ false)
        × (odd_pair verb (all_seen given.now ++ one name [] ∷ []) ≡ None)) }
{
    if has(given, name) {
        return Some(Why::Twice(name));
    }
    match odd_pair(verb, given, name) {
        Some((one, other)) => Some(Why::AtOdds(one, other)),
        None => None,
    }
}

/// The text of an option's value, which is empty for a flag, and how many words the option and its value are: the value
/// is joined to the name, or the first of the words that follow.
fn value_of<'a>(
    verb: Verb,
    option: &str,
    joined: Option<&'a str>,
    following: &'a [String],
) -> Option<(&'a str, usize)>
    ensures { option_map (λ r. (r.0.now, r.1)) result ≡ value_of verb option.now (option_map (λ t. t.now) joined.entry)
        (map string_bytes following.now) }
{
    match joined {
        Some(text) => Some((text, 1)),
        None if verb.is_flag(option) => Some(("", 1)),
        None => match following.first() {
            Some(text) => Some((text.as_str(), 2)),
            None => None,
        },
    }
}

/// Where words stop that are options of which a hunt may still come; `None` where they ask for something.
fn stop_at_end(
    alloc: Global,
    verb: Verb,
    given: &[Given<'_>],
    words: &[String],
) -> Result<Option<Stop>, AllocError>
    requires { IsCut verb (map string_bytes words.now) (all_seen given.now) }
    ensures some { IfOk result (λ stop. IfSome stop (λ s.
        StopsAfter verb (map string_bytes words.now) s.place s.why)) }
    ensures none { IfOk result (λ stop. IfNone stop (hunt_by verb (map string_bytes words.now) ≢ None)) }
{
    if hunt_of(alloc, verb, given)?.is_some() {
        return Ok(None);
    }
    Ok(Some(Stop {
        place: words.len(),
        why: Why::Lacks(missing(alloc, verb, given)?),
    }))
}

/// What is missing of options of which no hunt comes yet.
fn missing(alloc: Global, verb: Verb, given: &[Given<'_>]) -> Result<Missing, AllocError>
    requires cut { (words : List (List ℕ)) × IsCut verb words (all_seen given.now) }
    requires none { hunt_of verb (all_seen given.now) ≡ None }
    ensures { IfOk result (λ missing. IsMissing verb (all_seen given.now) missing) }
{
    if let Some(missing) = lacks(verb, given) {
        return Ok(missing);
    }
    if !has(given, Name::Cores) && !suits(alloc, verb, given, CORES_DEFAULT)? {
        Ok(Missing::Cores)
    } else {
        Ok(Missing::Words)
    }
}
