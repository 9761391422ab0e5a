//! Options of which a hunt may still come.
ghost use Rattle.std.specs.Prelude.{◌≡◌, [], ◌∷◌, ◌++◌, ◌*◌, ◌==◌, ◌||◌, nat_le, IfOk, Some, None, find, if◌then◌else◌};
ghost use Rattle.rtr_types.specs.declared.params.TheConstants.{INSTRUCTIONS_MAX, LIMIT_MAX};
ghost use Rattle.tool_words.specs.Numerals.{number_between};
ghost use Rattle.hunt_words.specs.declared.faults.Missing.TheVariants.{Demand};
ghost use Rattle.hunt_words.specs.declared.names.Name.TheVariants.{Expect, Never};
ghost use Rattle.std.specs.List.{list_all};
ghost use Rattle.std.specs.Option.{option_map};
ghost use Rattle.hunt_words.specs.Open.{are_both, has, has_machine, is_value, is_value_or, lacks, lacks_run};
ghost use Rattle.hunt_words.specs.Open.{most_words, odd_pair, one, passes, suits, text_of};
ghost use Rattle.end_claims.specs.Named.{are_named_within, are_within};
ghost use Rattle.end_claims.specs.Reading.{claim_of, places_of};
ghost use Rattle.hunt_words.specs.Seen.{all_seen};

use crate::faults::Missing;
use crate::given::{Given, has_option, text_at};
use crate::names::Name;
use crate::options::HUNT_THREADS_MAX;
use crate::values::{policy_named, range_named, turns_named};
use crate::verbs::Verb;
use end_claims::{names_within, places_within, read_claim, read_places};
use rtr_types::{CORES_MAX, INSTRUCTIONS_MAX, LIMIT_MAX, Params, WORDS_MAX};
use std::alloc::{AllocError, Global};
use tool_words::{number_between, whole_blocks};

/// Whether the option is given.
pub(crate) fn has(given: &[Given<'_>], name: Name) -> bool
    ensures { result ≡ has name (all_seen given.now) }
{
    has_option(given, name.word())
}

/// Whether some machine suits the options: each has a value on it. The only refusal is want of memory.
#[tactic(auto, using(crate::proofs::OptionLists::range_step, crate::proofs::OptionLists::range_none))]
pub(crate) fn has_machine(
    alloc: Global,
    verb: Verb,
    given: &[Given<'_>],
) -> Result<bool, AllocError>
    ensures { IfOk result (λ yes. yes ≡ has_machine verb (all_seen given.now)) }
{
    for below in 0..CORES_MAX as u8 {
        if suits(alloc, verb, given, below + 1)? {
            return Ok(true);
        }
    }
    Ok(false)
}

/// Whether each option has a value on a machine with so many cores, whose memory has the words that are given, or the
/// most that there may be.
pub(crate) fn suits(
    alloc: Global,
    verb: Verb,
    given: &[Given<'_>],
    cores: u8,
) -> Result<bool, AllocError>
    ensures { IfOk result (λ yes. yes ≡ suits verb (all_seen given.now) cores) }
{
    match verb {
        Verb::First => are_values(
            alloc,
            cores,
            given,
            &[
                Name::Cores,
                Name::Limit,
                Name::Words,
                Name::By,
                Name::Runs,
                Name::Threads,
                Name::Expect,
                Name::Never,
                Name::Same,
            ],
        ),
        Verb::Table => are_values(
            alloc,
            cores,
            given,
            &[
                Name::Cores,
                Name::Limit,
                Name::Words,
                Name::By,
                Name::Runs,
                Name::Threads,
                Name::Expect,
                Name::Never,
                Name::See,
            ],
        ),
        Verb::Small => are_values(
            alloc,
            cores,
            given,
            &[
                Name::Cores,
                Name::Limit,
                Name::Words,
                Name::By,
                Name::Run,
                Name::Turns,
                Name::Expect,
                Name::Never,
            ],
        ),
        Verb::Words | Verb::Record => are_values(
            alloc,
            cores,
            given,
            &[
                Name::Cores,
                Name::Limit,
                Name::Words,
                Name::By,
                Name::Run,
                Name::Turns,
            ],
        ),
    }
}

/// Whether each of these options, where it is given, has a value on a machine with so many cores.
fn are_values(
    alloc: Global,
    cores: u8,
    given: &[Given<'_>],
    names: &[Name],
) -> Result<bool, AllocError>
    ensures { IfOk result (λ yes. yes ≡ list_all (λ name. is_value_or cores (most_words (all_seen given.now)) name
        (text_of name (all_seen given.now))) names.now) }
{
    let words = most_words(given);
    for k in 0..names.len() {
        let name = names[k];
        if !is_value_or(alloc, cores, words, name, text_at(given, name.word()))? {
            return Ok(false);
        }
    }
    Ok(true)
}

/// The words of memory that the options name, or the most that there may be.
fn most_words(given: &[Given<'_>]) -> u32
    ensures { result ≡ most_words (all_seen given.now) }
{
    match text_at(given, Name::Words.word()) {
        Some(text) => whole_blocks(text).unwrap_or(WORDS_MAX),
        None => WORDS_MAX,
    }
}

/// Whether the option's text, where there is one, is a value on a machine with so many cores and words.
fn is_value_or(
    alloc: Global,
    cores: u8,
    words: u32,
    name: Name,
    text: Option<&str>,
) -> Result<bool, AllocError>
    ensures { IfOk result (λ yes. yes ≡ is_value_or cores words name (option_map (λ t. t.now) text.entry)) }
{
    match text {
        Some(text) => is_value(alloc, cores, words, name, text),
        None => Ok(true),
    }
}

/// Whether the text is a value of the option on a machine with so many cores and words.
fn is_value(
    alloc: Global,
    cores: u8,
    words: u32,
    name: Name,
    text: &str,
) -> Result<bool, AllocError>
    ensures { IfOk result (λ yes. yes ≡ is_value cores words name text.now) }
{
    match name {
        Name::Cores => Ok(is_just(number_between(1, CORES_MAX as u64, text), cores as u64)),
        Name::Limit => Ok(is_limit(cores, text)),
        Name::Words => Ok(are_just(whole_blocks(text), words)),
        Name::By => Ok(policy_named(text).is_some()),
        Name::Runs => Ok(range_named(text).is_some()),
        Name::Threads => Ok(number_between(1, HUNT_THREADS_MAX as u64, text).is_some()),
        Name::Run => Ok(number_between(0, u64::MAX, text).is_some()),
        Name::Turns => Ok(turns_named(alloc, text)?.is_some()),
        Name::Expect | Name::Never => is_claim(alloc, cores, words, text),
        Name::Same | Name::See => are_places(alloc, cores, words, text),
        Name::Elf | Name::Tso | Name::Plain => Ok(true),
    }
}

/// Whether there is a number, and it is this one.
fn is_just(found: Option<u64>, number: u64) -> bool
    ensures { result ≡ passes (λ n. n == number) found }
{
    match found {
        Some(n) => n == number,
        None => false,
    }
}

/// Whether there are words, and as many as these.
fn are_just(found: Option<u32>, words: u32) -> bool
    ensures { result ≡ passes (λ n. n == words) found }
{
    match found {
        Some(n) => n == words,
        None => false,
    }
}

/// Whether the text is a limit that so many cores may have together.
fn is_limit(cores: u8, text: &str) -> bool
    ensures { result ≡ passes (λ n. nat_le (cores * n) INSTRUCTIONS_MAX) (number_between 1 LIMIT_MAX text.now) }
{
    match number_between(1, LIMIT_MAX as u64, text) {
        Some(limit) => cores as u64 * limit <= INSTRUCTIONS_MAX as u64,
        None => false,
    }
}

/// Whether the text is a claim, and the machine has all that it names.
fn is_claim(alloc: Global, cores: u8, words: u32, text: &str) -> Result<bool, AllocError>
    ensures { IfOk result (λ yes. yes ≡ passes (are_named_within cores words) (claim_of text.now)) }
{
    match read_claim(alloc, text)? {
        Some(claim) => Ok(names_within(machine(cores, words), &claim)),
        None => Ok(false),
    }
}

/// Whether the text is places, and the machine has each of them.
fn are_places(alloc: Global, cores: u8, words: u32, text: &str) -> Result<bool, AllocError>
    ensures { IfOk result (λ yes. yes ≡ passes (are_within cores words) (places_of cores text.now)) }
{
    match read_places(alloc, cores, text)? {
        Some(places) => Ok(places_within(machine(cores, words), places.as_slice())),
        None => Ok(false),
    }
}

/// A machine with so many cores and words.
fn machine(cores: u8, words: u32) -> Params
    ensures cores { result.cores ≡ cores }
    ensures words { result.words ≡ words }
{
    Params {
        cores,
        limit: 1,
        words,
    }
}

/// Two options that don't go together and would both be given, were this one given too.
pub(crate) fn odd_pair(verb: Verb, given: &[Given<'_>], name: Name) -> Option<(Name, Name)>
    ensures { result ≡ odd_pair verb (all_seen given.now ++ one name [] ∷ []) }
{
    match verb {
        Verb::First | Verb::Table => first_both(
            given,
            name,
            &[
                (Name::Elf, Name::Tso),
                (Name::Expect, Name::Never),
                (Name::Expect, Name::Same),
                (Name::Never, Name::Same),
            ],
        ),
        Verb::Small => first_both(
            given,
            name,
            &[
                (Name::Elf, Name::Tso),
                (Name::Expect, Name::Never),
                (Name::Expect, Name::Same),
                (Name::Never, Name::Same),
                (Name::Run, Name::Turns),
                (Name::By, Name::Turns),
            ],
        ),
        Verb::Words | Verb::Record => first_both(
            given,
            name,
            &[
                (Name::Elf, Name::Tso),
                (Name::Run, Name::Turns),
                (Name::By, Name::Turns),
            ],
        ),
    }
}

/// The first pair of these that would be given, were this option given too.
fn first_both(given: &[Given<'_>], name: Name, pairs: &[(Name, Name)]) -> Option<(Name, Name)>
    ensures { result ≡ find (are_both (all_seen given.now ++ one name [] ∷ [])) pairs.now }
{
    for k in 0..pairs.len() {
        let pair = pairs[k];
        if has_with(given, name, pair.0) && has_with(given, name, pair.1) {
            return Some(pair);
        }
    }
    None
}

/// Whether the other option would be given, were this one given too.
#[tactic(auto, using(crate::proofs::GivenTexts::has_with))]
fn has_with(given: &[Given<'_>], name: Name, other: Name) -> bool
    ensures { result ≡ has other (all_seen given.now ++ one name [] ∷ []) }
{
    has(given, other) || name.word() == other.word()
}

/// What the verb must have, and isn't given.
pub(crate) fn lacks(verb: Verb, given: &[Given<'_>]) -> Option<Missing>
    ensures { result ≡ lacks verb (all_seen given.now) }
{
    match verb {
        Verb::First => lacks_demand(has_claim(given) || has(given, Name::Same)),
        Verb::Table => lacks_demand(has_claim(given) || has(given, Name::See)),
        Verb::Small => match lacks_run(given) {
            Some(missing) => Some(missing),
            None => lacks_demand(has_claim(given)),
        },
        Verb::Words | Verb::Record => lacks_run(given),
    }
}

/// What is demanded or seen is missing, unless some of it is given.
fn lacks_demand(is_given: bool) -> Option<Missing>
    ensures { result ≡ (if is_given then None else Some Demand) }
{
    if is_given {
        None
    } else {
        Some(Missing::Demand)
    }
}

/// Whether a claim is given.
fn has_claim(given: &[Given<'_>]) -> bool
    ensures { result ≡ (has Expect (all_seen given.now) || has Never (all_seen given.now)) }
{
    has(given, Name::Expect) || has(given, Name::Never)
}

/// What is missing of a run's name.
fn lacks_run(given: &[Given<'_>]) -> Option<Missing>
    ensures { result ≡ lacks_run (all_seen given.now) }
{
    if has(given, Name::Run) || has(given, Name::Turns) {
        None
    } else if has(given, Name::By) {
        Some(Missing::Number)
    } else {
        Some(Missing::ARun)
    }
}
