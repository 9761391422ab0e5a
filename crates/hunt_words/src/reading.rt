//! From words to what is asked for.
ghost use Rattle.std.specs.Prelude.{◌≡◌, IfOk, IfSome, map, string_bytes};
ghost use Rattle.hunt_words.specs.Fitting.{IsFitting, IsSetup};
ghost use Rattle.hunt_words.specs.Meaning.{first_of, hunt_of, meaning, small_of, table_of};
ghost use Rattle.hunt_words.specs.Seen.{all_seen};

use crate::given::{Given, are_each_once, given_in, has_option};
use crate::hunt::{Hunt, RunName, Setup};
use crate::options::{demand_of, run_name_of, runs_of, setup_of, table_demand, table_places};
use crate::verbs::Verb;
use std::alloc::{AllocError, Global};
use turn_policies::Named;

/// What the words ask for, or `None`. The first word is the verb; options follow in any order, each at most once, as
/// `--name value` or `--name=value`, and a flag as `--name`. The word after `--name` is its value, whatever it begins
/// with. Names are exact, and numbers have no leading zero. The cores times the limit are at most `INSTRUCTIONS_MAX`,
/// `--elf` and `--tso` don't go together, and the machine has each core and word that a claim or a place names. `first`
/// has one of `--expect`, `--never` and `--same`; `small` has one of the first two, and `table` at most one, and else
/// `--see`. `small`, `words` and `record` have either `--run`, with `--by` or without, or `--turns`. Every other list
/// of words, among them the empty one, means nothing. The only refusal is want of memory.
#[tactic(auto, unfolding(crate::specs::Meaning::hunt_by))]
pub fn meaning(alloc: Global, words: &[String]) -> Result<Option<Hunt>, AllocError>
    ensures value { IfOk result (λ hunt. hunt ≡ meaning (map string_bytes words.now)) }
    ensures fits { IfOk result (λ hunt. IfSome hunt (λ h. IsFitting h)) }
{
    let (first, rest) = match words.split_first() {
        Some(parts) => parts,
        None => return Ok(None),
    };
    let verb = match Verb::named(first.as_str()) {
        Some(verb) => verb,
        None => return Ok(None),
    };
    match given_in(alloc, verb, rest) {
        Ok(Some(given)) if are_each_once(given.as_slice()) => hunt_of(
            alloc,
            verb,
            given.as_slice(),
        ),
        Ok(_) => Ok(None),
        Err(error) => Err(error),
    }
}

/// What the verb asks for with these options.
#[tactic(auto, unfolding(crate::specs::Meaning::hunt_of))]
pub(crate) fn hunt_of(
    alloc: Global,
    verb: Verb,
    given: &[Given<'_>],
) -> Result<Option<Hunt>, AllocError>
    ensures value { IfOk result (λ hunt. hunt ≡ hunt_of verb (all_seen given.now)) }
    ensures fits { IfOk result (λ hunt. IfSome hunt (λ h. IsFitting h)) }
{
    let setup = match setup_of(given) {
        Some(setup) => setup,
        None => return Ok(None),
    };
    match verb {
        Verb::First => first_of(alloc, setup, given),
        Verb::Table => table_of(alloc, setup, given),
        Verb::Small => small_of(alloc, setup, given),
        Verb::Words => Ok(match run_name_of(alloc, given)? {
            Some(run) => Some(Hunt::Words { setup, run }),
            None => None,
        }),
        Verb::Record => Ok(match run_name_of(alloc, given)? {
            Some(run) => Some(Hunt::Record { setup, run }),
            None => None,
        }),
    }
}

/// The first run of a range that breaks a demand.
#[tactic(auto, unfolding(crate::specs::Meaning::first_of))]
fn first_of(alloc: Global, setup: Setup, given: &[Given<'_>]) -> Result<Option<Hunt>, AllocError>
    requires { IsSetup setup }
    ensures value { IfOk result (λ hunt. hunt ≡ first_of setup (all_seen given.now)) }
    ensures fits { IfOk result (λ hunt. IfSome hunt (λ h. IsFitting h)) }
{
    let runs = match runs_of(given, Named::All) {
        Some(runs) => runs,
        None => return Ok(None),
    };
    let plain = has_option(given, "--plain");
    match demand_of(alloc, setup.params, given)? {
        Some(demand) => Ok(Some(Hunt::First {
            setup,
            runs,
            demand,
            plain,
        })),
        None => Ok(None),
    }
}

/// A table of a range of runs.
#[tactic(auto, unfolding(crate::specs::Meaning::table_of))]
fn table_of(alloc: Global, setup: Setup, given: &[Given<'_>]) -> Result<Option<Hunt>, AllocError>
    requires { IsSetup setup }
    ensures value { IfOk result (λ hunt. hunt ≡ table_of setup (all_seen given.now)) }
    ensures fits { IfOk result (λ hunt. IfSome hunt (λ h. IsFitting h)) }
{
    let runs = match runs_of(given, Named::Mixed) {
        Some(runs) => runs,
        None => return Ok(None),
    };
    let demand = match table_demand(alloc, setup.params, given)? {
        Some(demand) => demand,
        None => return Ok(None),
    };
    match table_places(alloc, setup.params, given, &demand)? {
        Some(places) => Ok(Some(Hunt::Table {
            setup,
            runs,
            places,
            demand,
        })),
        None => Ok(None),
    }
}

/// One run made small.
#[tactic(auto, unfolding(crate::specs::Meaning::small_of))]
fn small_of(alloc: Global, setup: Setup, given: &[Given<'_>]) -> Result<Option<Hunt>, AllocError>
    requires { IsSetup setup }
    ensures value { IfOk result (λ hunt. hunt ≡ small_of setup (all_seen given.now)) }
    ensures fits { IfOk result (λ hunt. IfSome hunt (λ h. IsFitting h)) }
{
    let run = match run_name_of(alloc, given)? {
        Some(run) => run,
        None => return Ok(None),
    };
    match demand_of(alloc, setup.params, given)? {
        Some(demand) => Ok(Some(Hunt::Small { setup, run, demand })),
        None => Ok(None),
    }
}
