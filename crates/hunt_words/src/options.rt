//! What the options of a verb come to.
ghost use Rattle.std.specs.Prelude.{◌≡◌, IfOk, IfSome, codes, true};
ghost use Rattle.std.specs.Option.{option_map};
ghost use Rattle.end_claims.specs.Demands.{is_demanded_within};
ghost use Rattle.hunt_words.specs.Fitting.{AreFewThreads, AreRuns, IsPolicy, IsRunName, IsSetup};
ghost use Rattle.hunt_words.specs.Options.{demand_by, demand_of, numbered, params_of, places_by, run_name_of};
ghost use Rattle.hunt_words.specs.Options.{runs_of, setup_of, table_demand, table_places, threads_of};
ghost use Rattle.hunt_words.specs.Given.{text_at};
ghost use Rattle.hunt_words.specs.Seen.{all_seen};
ghost use Rattle.end_claims.specs.Named.{are_within};
ghost use Rattle.rtr_types.specs.Parameters.{Fits};

use crate::given::{Given, has_option, text_at};
use crate::hunt::{RunName, Runs, Setup};
use crate::values::{number_or, policy_named, policy_or, range_or, turns_named, words_or};
use end_claims::{
    Demand, Place, demand_places, demand_within, places_within, read_claim, read_places,
};
use rtr_types::{CORES_MAX, INSTRUCTIONS_MAX, Items, LIMIT_MAX, Params};
use std::alloc::{AllocError, Global};
use tool_words::{CORES_DEFAULT, LIMIT_DEFAULT, number_between};
use turn_policies::Named;

/// The most threads of a hunt.
pub const HUNT_THREADS_MAX: u32 = 64;

/// The parameters of the machine.
#[tactic(auto, unfolding(crate::specs::Options::params_of))]
fn params_of(given: &[Given<'_>]) -> Option<Params>
    ensures value { result ≡ params_of (all_seen given.now) }
    ensures fits { IfSome result (λ params. Fits params) }
{
    let cores = number_or(given, "--cores", 1, CORES_MAX as u64, CORES_DEFAULT as u64)?;
    let limit = number_or(given, "--limit", 1, LIMIT_MAX as u64, LIMIT_DEFAULT as u64)?;
    let words = words_or(given)?;
    if cores * limit <= INSTRUCTIONS_MAX as u64 {
        Some(Params {
            cores: cores as u8,
            limit: limit as u32,
            words,
        })
    } else {
        None
    }
}

/// The machine that the runs are made on.
#[tactic(auto, unfolding(crate::specs::Options::setup_of))]
pub(crate) fn setup_of(given: &[Given<'_>]) -> Option<Setup>
    ensures value { result ≡ setup_of (all_seen given.now) }
    ensures fits { IfSome result (λ setup. IsSetup setup) }
{
    let params = params_of(given)?;
    let elf = has_option(given, "--elf");
    let tso = has_option(given, "--tso");
    if elf && tso {
        None
    } else {
        Some(Setup { params, elf, tso })
    }
}

/// The number of threads, where the options name one.
#[tactic(auto, unfolding(crate::specs::Options::threads_of))]
fn threads_of(given: &[Given<'_>]) -> Option<Option<u32>>
    ensures value { result ≡ threads_of (all_seen given.now) }
    ensures few { IfSome result (λ threads. AreFewThreads threads) }
{
    match text_at(given, "--threads") {
        Some(text) => {
            let threads = number_between(1, HUNT_THREADS_MAX as u64, text)?;
            Some(Some(threads as u32))
        }
        None => Some(None),
    }
}

/// The runs that are tried, by this policy where the options name none.
#[tactic(auto, unfolding(crate::specs::Options::runs_of))]
pub(crate) fn runs_of(given: &[Given<'_>], default: Named) -> Option<Runs>
    requires { IsPolicy default }
    ensures value { result ≡ runs_of default (all_seen given.now) }
    ensures fit { IfSome result (λ runs. AreRuns runs) }
{
    let by = policy_or(given, default)?;
    let (first, last) = range_or(given)?;
    let threads = threads_of(given)?;
    Some(Runs {
        by,
        first,
        last,
        threads,
    })
}

/// The one run that the options name: by `--run` and a policy, or by `--turns`. The only refusal is want of memory.
#[tactic(auto, unfolding(crate::specs::Options::run_name_of))]
pub(crate) fn run_name_of(alloc: Global, given: &[Given<'_>]) -> Result<Option<RunName>, AllocError>
    ensures value { IfOk result (λ run. run ≡ run_name_of (all_seen given.now)) }
    ensures fits { IfOk result (λ run. IfSome run (λ name. IsRunName name)) }
{
    let run = text_at(given, "--run");
    let by = text_at(given, "--by");
    let turns = text_at(given, "--turns");
    match (run, by, turns) {
        (Some(run), None, None) => Ok(numbered(Some(Named::All), run)),
        (Some(run), Some(by), None) => Ok(numbered(policy_named(by), run)),
        (None, None, Some(text)) => match turns_named(alloc, text)? {
            Some(turns) => Ok(Some(RunName::Turns(turns))),
            None => Ok(None),
        },
        _ => Ok(None),
    }
}

/// The run of this policy whose number the text is.
#[tactic(auto, unfolding(crate::specs::Options::numbered))]
fn numbered(by: Option<Named>, text: &str) -> Option<RunName>
    requires { IfSome by (λ by. IsPolicy by) }
    ensures value { result ≡ numbered by text.now }
    ensures fits { IfSome result (λ name. IsRunName name) }
{
    let by = by?;
    let number = number_between(0, u64::MAX, text)?;
    Some(RunName::Numbered { by, number })
}

/// What the options demand, where exactly one of `--expect`, `--never` and `--same` is given. The only refusal is want
/// of memory.
#[tactic(auto, unfolding(crate::specs::Options::demand_of))]
pub(crate) fn demand_of(
    alloc: Global,
    params: Params,
    given: &[Given<'_>],
) -> Result<Option<Demand>, AllocError>
    ensures value { IfOk result (λ demand. demand ≡ demand_of params (all_seen given.now)) }
    ensures fits { IfOk result (λ demand. IfSome demand (λ d. is_demanded_within params.cores params.words d ≡ true)) }
{
    match demand_by(alloc, params.cores, given)? {
        Some(demand) if demand_within(params, &demand) => Ok(Some(demand)),
        _ => Ok(None),
    }
}

/// What the options demand of runs with so many cores, which may lack what is named.
fn demand_by(alloc: Global, cores: u8, given: &[Given<'_>]) -> Result<Option<Demand>, AllocError>
    ensures { IfOk result (λ demand. demand ≡ demand_by cores (text_at (codes "--expect") (all_seen given.now))
        (text_at (codes "--never") (all_seen given.now)) (text_at (codes "--same") (all_seen given.now))) }
{
    let expect = text_at(given, "--expect");
    let never = text_at(given, "--never");
    let same = text_at(given, "--same");
    match (expect, never, same) {
        (Some(text), None, None) => match read_claim(alloc, text)? {
            Some(claim) => Ok(Some(Demand::Expect(claim))),
            None => Ok(None),
        },
        (None, Some(text), None) => match read_claim(alloc, text)? {
            Some(claim) => Ok(Some(Demand::Never(claim))),
            None => Ok(None),
        },
        (None, None, Some(text)) => match read_places(alloc, cores, text)? {
            Some(places) => Ok(Some(Demand::Same(places))),
            None => Ok(None),
        },
        _ => Ok(None),
    }
}

/// What the options of a table demand, which may be nothing.
#[tactic(auto, unfolding(crate::specs::Options::table_demand))]
pub(crate) fn table_demand(
    alloc: Global,
    params: Params,
    given: &[Given<'_>],
) -> Result<Option<Option<Demand>>, AllocError>
    ensures value { IfOk result (λ demand. demand ≡ table_demand params (all_seen given.now)) }
    ensures fits { IfOk result (λ demand. IfSome demand (λ d. IfSome d (λ d.
        is_demanded_within params.cores params.words d ≡ true))) }
{
    if !has_option(given, "--expect") && !has_option(given, "--never") {
        return Ok(Some(None));
    }
    match demand_of(alloc, params, given)? {
        Some(demand) => Ok(Some(Some(demand))),
        None => Ok(None),
    }
}

/// The places of a table: those of `--see`, else those of its demand. The only refusal is want of memory.
#[tactic(auto, unfolding(crate::specs::Options::table_places))]
pub(crate) fn table_places(
    alloc: Global,
    params: Params,
    given: &[Given<'_>],
    demand: &Option<Demand>,
) -> Result<Option<Items<Place>>, AllocError>
    ensures value { IfOk result (λ places. places ≡ table_places params (all_seen given.now) demand.now) }
    ensures fits { IfOk result (λ places. IfSome places (λ ps. are_within params.cores params.words ps ≡ true)) }
{
    match places_by(alloc, params.cores, text_at(given, "--see"), demand)? {
        Some(places) if places_within(params, places.as_slice()) => Ok(Some(places)),
        _ => Ok(None),
    }
}

/// The places of a table of runs with so many cores, which may lack what is named.
fn places_by(
    alloc: Global,
    cores: u8,
    see: Option<&str>,
    demand: &Option<Demand>,
) -> Result<Option<Items<Place>>, AllocError>
    ensures { IfOk result (λ places. places ≡ places_by cores (option_map (λ t. t.now) see.entry) demand.now) }
{
    match (see, demand) {
        (Some(text), _) => read_places(alloc, cores, text),
        (None, Some(demand)) => Ok(Some(demand_places(alloc, cores, demand)?)),
        (None, None) => Ok(None),
    }
}
