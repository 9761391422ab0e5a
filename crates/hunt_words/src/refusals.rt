//! Why no machine suits options.
ghost use Rattle.std.specs.Prelude.{◌≡◌, ◌∷◌, [], ◌++◌, List, IfOk, if◌then◌else◌, true};
ghost use Rattle.tool_words.specs.Numerals.{is_numeral};
ghost use Rattle.hunt_words.specs.Faults.{AreTooMany, Refuses, is_readable, refusal};
ghost use Rattle.hunt_words.specs.Given.{Given as GivenSeen};
ghost use Rattle.hunt_words.specs.Open.{one};
ghost use Rattle.hunt_words.specs.declared.faults.Why.TheVariants.{NoNumber, OutOfRange};
ghost use Rattle.hunt_words.specs.Seen.{all_seen};

use crate::faults::Why;
use crate::given::{Given, text_at};
use crate::names::Name;
use crate::numerals::is_numeral;
use crate::options::HUNT_THREADS_MAX;
use crate::values::{policy_named, range_named, turns_named};
use end_claims::{read_claim, read_places};
use rtr_types::{CORES_MAX, INSTRUCTIONS_MAX, LIMIT_MAX, WORDS_MAX, WORDS_MIN};
use std::alloc::{AllocError, Global};
use tool_words::{number_between, whole_blocks};

/// Why no machine suits the options with the last one, whose name and text these are. The only refusal is want of
/// memory.
pub(crate) fn refusal_of(
    alloc: Global,
    given: &[Given<'_>],
    name: Name,
    text: &str,
) -> Result<Why, AllocError>
    ensures { IfOk result (λ why. (before : List GivenSeen) → all_seen given.now ≡ before ++ one name text.now ∷ []
        → Refuses before name text.now why) }
{
    if !is_readable(alloc, name, text)? {
        Ok(refusal(name, text))
    } else if are_too_many(given) {
        Ok(Why::TooMany)
    } else {
        Ok(Why::NoMachine)
    }
}

/// Whether the text is a value of the option, on some machine.
fn is_readable(alloc: Global, name: Name, text: &str) -> Result<bool, AllocError>
    ensures { IfOk result (λ yes. yes ≡ is_readable name text.now) }
{
    match name {
        Name::Cores => Ok(number_between(1, CORES_MAX as u64, text).is_some()),
        Name::Limit => Ok(number_between(1, LIMIT_MAX as u64, text).is_some()),
        Name::Words => Ok(whole_blocks(text).is_some()),
        Name::By => Ok(policy_named(text).is_some()),
        Name::Runs => Ok(range_named(text).is_some()),
        Name::Threads => Ok(number_between(1, HUNT_THREADS_MAX as u64, text).is_some()),
        Name::Run => Ok(number_between(0, u64::MAX, text).is_some()),
        Name::Turns => Ok(turns_named(alloc, text)?.is_some()),
        Name::Expect | Name::Never => Ok(read_claim(alloc, text)?.is_some()),
        Name::Same | Name::See => Ok(read_places(alloc, CORES_MAX as u8, text)?.is_some()),
        Name::Elf | Name::Tso | Name::Plain => Ok(true),
    }
}

/// Why a text is no value of the option.
fn refusal(name: Name, text: &str) -> Why
    ensures { result ≡ refusal name text.now }
{
    match name {
        Name::Cores => out_of(name, text, 1, CORES_MAX as u64),
        Name::Limit => out_of(name, text, 1, LIMIT_MAX as u64),
        Name::Words => out_of(name, text, WORDS_MIN as u64, WORDS_MAX as u64),
        Name::Threads => out_of(name, text, 1, HUNT_THREADS_MAX as u64),
        Name::Run => out_of(name, text, 0, u64::MAX),
        _ => Why::NoSuchValue(name),
    }
}

/// Why a text is no number in this range.
fn out_of(option: Name, text: &str, least: u64, most: u64) -> Why
    ensures { result ≡ (if is_numeral text.now then OutOfRange option least most else NoNumber option) }
{
    if is_numeral(text.as_bytes()) {
        Why::OutOfRange {
            option,
            least,
            most,
        }
    } else {
        Why::NoNumber(option)
    }
}

/// Whether the cores and the limit are given, and are too many instructions together.
fn are_too_many(given: &[Given<'_>]) -> bool
    ensures { result ≡ true → AreTooMany (all_seen given.now) }
{
    let cores = match text_at(given, Name::Cores.word()) {
        Some(text) => number_between(1, CORES_MAX as u64, text),
        None => None,
    };
    let limit = match text_at(given, Name::Limit.word()) {
        Some(text) => number_between(1, LIMIT_MAX as u64, text),
        None => None,
    };
    match (cores, limit) {
        (Some(cores), Some(limit)) => cores * limit > INSTRUCTIONS_MAX as u64,
        _ => false,
    }
}
