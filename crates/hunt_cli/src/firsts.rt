//! The first run of a range that breaks a demand.
ghost use Rattle.std.specs.Prelude.{◌≡◌, ◌+◌, ◌*◌, ◌<◌, ◌≤◌, ◌++◌, ℕ, List, IfOk, None, OnOk, Some};
ghost use Rattle.std.specs.Prelude.{length, string_bytes, true};
ghost use Rattle.rtr_types.specs.Parameters.{Fits};
ghost use Rattle.end_claims.specs.Demands.{is_demanded_within};
ghost use Rattle.end_claims.specs.Ends.{values_at};
ghost use Rattle.end_claims.specs.Named.{are_within};
ghost use Rattle.run_ranges.specs.Firsts.{IsFirst};
ghost use Rattle.hunt_words.specs.Fitting.{IsRange};
ghost use Rattle.hunt_texts.specs.Reports.{found_report};
ghost use Rattle.hunt_texts.specs.Shown.{run_line};
ghost use Rattle.hunt_cli.specs.Finds.{FindsFirst, IsFoundAs, IsPut, IsShown, choices_at, firsts, number_breaks};
ghost use Rattle.hunt_cli.specs.Kinds.{end_under, kind_with, picks, setting_on};
ghost use Rattle.hunt_cli.specs.RunEnds.{IsRunUnder};
ghost use Rattle.hunt_cli.specs.declared.exits.HuntExit.TheVariants.{Breaks};

use crate::ends::RunEnd;
use crate::exits::Answer;
use crate::ranges::PolicyRuns;
use crate::runs::{counted, run_at};
use crate::shows::put_run;
use crate::smalls::SmallOf;
use end_claims::{Demand, Place};
use hunt_runs::{Counted, HuntedMachine};
use hunt_texts::{found_report, none_text, run_text};
use hunt_words::{Runs, Setup};
use rtr_types::Items;
use run_ranges::{Pace, first_of_range};
use std::alloc::{AllocError, Global};
use std::marker::PhantomData;
use std::thread::Threads;

/// What is asked of the first run of a range that breaks a demand.
#[derive(Clone, Copy)]
pub(crate) struct FirstOf<'a> {
    pub(crate) bytes: &'a [u8],
    pub(crate) setup: Setup,
    pub(crate) runs: Runs,
    pub(crate) demand: &'a Demand,
    /// Whether the run is shown as it is, and not made small.
    pub(crate) plain: bool,
    ghost fits: { Fits setup.params },
    ghost room: { length bytes.now ≤ 4 * setup.params.words },
    ghost range: { IsRange runs.first runs.last },
    ghost demanded: { is_demanded_within setup.params.cores setup.params.words demand.now ≡ true },
}

impl FirstOf<'_> {
    /// The run of the policy with this number. The only refusal is want of memory.
    fn run<M: HuntedMachine>(
        self,
        alloc: Global,
        counted: &Counted,
        number: u64,
    ) -> Result<RunEnd<M>, AllocError>
        requires { counted.now ≡ picks (setting_on (kind_with M.seen_at M.changes_at M.outcome M.most_steps M.buffers)
            self.setup.params self.bytes.now) }
        ensures { IfOk result (λ r. let s = setting_on (kind_with M.seen_at M.changes_at M.outcome M.most_steps
            M.buffers)
            self.entry.setup.params self.entry.bytes.now in IsRunUnder s (choices_at s self.entry.runs.by number) r) }
    {
        run_at(
            alloc,
            self.bytes,
            self.setup.params,
            counted,
            self.runs.by,
            number,
        )
    }

    /// The values of places at the end of the range's first run. The only refusal is want of memory.
    fn values_at_first<M: HuntedMachine>(
        self,
        alloc: Global,
        counted: &Counted,
        places: &[Place],
    ) -> Result<Items<u32>, AllocError>
        requires counts { counted.now ≡ picks (setting_on (kind_with M.seen_at M.changes_at M.outcome M.most_steps
            M.buffers)
            self.setup.params self.bytes.now) }
        requires within { are_within self.setup.params.cores self.setup.params.words places.now ≡ true }
        ensures { IfOk result (λ values. let s = setting_on (kind_with M.seen_at M.changes_at M.outcome M.most_steps
            M.buffers) self.entry.setup.params self.entry.bytes.now in
            values ≡ values_at (end_under s (choices_at s self.entry.runs.by self.entry.runs.first)) places.now) }
    {
        let run = self.run::<M>(alloc, counted, self.runs.first)?;
        let values = run.values(alloc, places)?;
        Ok(values)
    }

    /// Puts the run with this number as it is. The only refusal is want of memory.
    fn put_plain<M: HuntedMachine>(
        self,
        alloc: Global,
        text: &mut String,
        counted: &Counted,
        number: u64,
    ) -> Result<(), AllocError>
        requires { counted.now ≡ picks (setting_on (kind_with M.seen_at M.changes_at M.outcome M.most_steps M.buffers)
            self.setup.params self.bytes.now) }
        ensures { OnOk result (let s = setting_on (kind_with M.seen_at M.changes_at M.outcome M.most_steps M.buffers)
            self.entry.setup.params self.entry.bytes.now in IsPut (string_bytes text.old) (string_bytes text.new)
            (IsShown self.entry.setup s self.entry.demand.now None (choices_at s self.entry.runs.by number))) }
    {
        let run = self.run::<M>(alloc, counted, number)?;
        put_run(alloc, text, &self.setup, self.demand, None, run)
    }
}

/// The first run of the range that breaks the demand, shown; or that none does. The only refusal is want of memory.
pub(crate) fn first_of<M: HuntedMachine + Sync, R: Threads + Sync, P: Pace>(
    rt: &R,
    alloc: Global,
    pace: &mut P,
    asked: FirstOf<'_>,
    threads: usize,
) -> Result<Answer, AllocError>
    requires { 0 < threads }
    ensures { IfOk result (λ a. FindsFirst asked.entry.setup (setting_on (kind_with M.seen_at M.changes_at M.outcome
        M.most_steps M.buffers) asked.entry.setup.params asked.entry.bytes.now) asked.entry.runs asked.entry.demand.now
        asked.entry.plain a.out.items (string_bytes a.report) a.exit) }
{
    let Runs { first, last, .. } = asked.runs;
    let counted = counted::<M>(alloc, asked.bytes, asked.setup.params)?;
    let values = first_values::<M>(alloc, asked, &counted)?;
    match first_number::<M, R, P>(rt, alloc, pace, asked, &counted, values.as_slice(), threads)? {
        Some(number) => {
            let shown = found::<M>(alloc, asked, &counted, values.as_slice(), number)?;
            Ok(shown)
        }
        None => {
            let text = none_text(alloc, first, last)?;
            Ok(Answer::done(alloc, text.into_bytes()))
        }
    }
}

/// The values that the range's first run ends with at the places of `Same`; none of another demand.
fn first_values<M: HuntedMachine>(
    alloc: Global,
    asked: FirstOf<'_>,
    counted: &Counted,
) -> Result<Items<u32>, AllocError>
    requires { counted.now ≡ picks (setting_on (kind_with M.seen_at M.changes_at M.outcome M.most_steps M.buffers)
        asked.setup.params asked.bytes.now) }
    ensures { IfOk result (λ values. values ≡ firsts (setting_on (kind_with M.seen_at M.changes_at M.outcome
        M.most_steps
        M.buffers) asked.entry.setup.params asked.entry.bytes.now) asked.entry.runs asked.entry.demand.now) }
{
    match asked.demand {
        Demand::Same(places) => asked.values_at_first::<M>(alloc, counted, places.as_slice()),
        _ => Ok(Items::new(alloc)),
    }
}

/// The number of the first run of the range that breaks the demand.
fn first_number<M: HuntedMachine + Sync, R: Threads + Sync, P: Pace>(
    rt: &R,
    alloc: Global,
    pace: &mut P,
    asked: FirstOf<'_>,
    counted: &Counted,
    first: &[u32],
    threads: usize,
) -> Result<Option<u64>, AllocError>
    requires threads { 0 < threads }
    requires counts { counted.now ≡ picks (setting_on (kind_with M.seen_at M.changes_at M.outcome M.most_steps
        M.buffers)
        asked.setup.params asked.bytes.now) }
    ensures { IfOk result (λ found. IsFirst (number_breaks (setting_on (kind_with M.seen_at M.changes_at M.outcome
        M.most_steps M.buffers) asked.entry.setup.params asked.entry.bytes.now) asked.entry.runs.by
        (Some asked.entry.demand.now) first.now) asked.entry.runs.first (asked.entry.runs.last + 1) found) }
{
    let trial: PolicyRuns<'_, M> = PolicyRuns {
        alloc,
        bytes: asked.bytes,
        params: asked.setup.params,
        counted,
        by: asked.runs.by,
        demand: Some(asked.demand),
        first,
        places: &[],
        machine: PhantomData,
    };
    let from = asked.runs.first;
    let to = asked.runs.last + 1;
    let found = first_of_range(rt, alloc, &trial, pace, from, to, threads);
    pace.over();
    found
}

/// The run of this number, which breaks the demand, shown: made small, or as it is.
fn found<M: HuntedMachine>(
    alloc: Global,
    asked: FirstOf<'_>,
    counted: &Counted,
    first: &[u32],
    number: u64,
) -> Result<Answer, AllocError>
    requires counts { counted.now ≡ picks (setting_on (kind_with M.seen_at M.changes_at M.outcome M.most_steps
        M.buffers)
        asked.setup.params asked.bytes.now) }
    requires values { first.now ≡ firsts (setting_on (kind_with M.seen_at M.changes_at M.outcome M.most_steps M.buffers)
        asked.setup.params asked.bytes.now) asked.runs asked.demand.now }
    requires breaks { number_breaks (setting_on (kind_with M.seen_at M.changes_at M.outcome M.most_steps M.buffers)
        asked.setup.params asked.bytes.now) asked.runs.by (Some asked.demand.now) first.now number ≡ true }
    ensures out { IfOk result (λ a. (shown : List ℕ) × IsFoundAs asked.entry.plain asked.entry.setup (setting_on
        (kind_with
        M.seen_at M.changes_at M.outcome M.most_steps M.buffers) asked.entry.setup.params asked.entry.bytes.now)
        asked.entry.runs asked.entry.demand.now number shown × (a.out.items ≡ run_line number ++ shown)) }
    ensures report { IfOk result (λ a. string_bytes a.report ≡ found_report number) }
    ensures exit { IfOk result (λ a. a.exit ≡ Breaks) }
{
    let mut text = run_text(alloc, number)?;
    put_found::<M>(alloc, &mut text, asked, counted, first, number)?;
    let report = found_report(alloc, number)?;
    Ok(Answer::breaks(text.into_bytes(), report))
}

/// Puts the run of this number, which breaks the demand: made small, or as it is.
fn put_found<M: HuntedMachine>(
    alloc: Global,
    text: &mut String,
    asked: FirstOf<'_>,
    counted: &Counted,
    first: &[u32],
    number: u64,
) -> Result<(), AllocError>
    requires counts { counted.now ≡ picks (setting_on (kind_with M.seen_at M.changes_at M.outcome M.most_steps
        M.buffers)
        asked.setup.params asked.bytes.now) }
    requires values { first.now ≡ firsts (setting_on (kind_with M.seen_at M.changes_at M.outcome M.most_steps M.buffers)
        asked.setup.params asked.bytes.now) asked.runs asked.demand.now }
    requires breaks { number_breaks (setting_on (kind_with M.seen_at M.changes_at M.outcome M.most_steps M.buffers)
        asked.setup.params asked.bytes.now) asked.runs.by (Some asked.demand.now) first.now number ≡ true }
    ensures { OnOk result (IsPut (string_bytes text.old) (string_bytes text.new) (IsFoundAs asked.entry.plain
        asked.entry.setup (setting_on (kind_with M.seen_at M.changes_at M.outcome M.most_steps M.buffers)
        asked.entry.setup.params asked.entry.bytes.now) asked.entry.runs asked.entry.demand.now number)) }
{
    let small = SmallOf {
        bytes: asked.bytes,
        setup: asked.setup,
        demand: asked.demand,
        first,
    };
    if asked.plain {
        return asked.put_plain::<M>(alloc, text, counted, number);
    }
    let run = asked.run::<M>(alloc, counted, number)?;
    match small.from_number(alloc, counted, asked.runs.by.numbered(number), run)? {
        Some(least) => small.put_turns::<M>(alloc, text, least.as_slice()),
        None => asked.put_plain::<M>(alloc, text, counted, number),
    }
}
