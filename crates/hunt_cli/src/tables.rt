//! The table of a range.
ghost use Rattle.std.specs.Prelude.{◌≡◌, ◌+◌, ◌*◌, ◌^◌, ◌<◌, ◌≤◌, IfOk, [], length, string_bytes, true};
ghost use Rattle.std.specs.Option.{option_map};
ghost use Rattle.rtr_types.specs.Parameters.{Fits};
ghost use Rattle.end_claims.specs.Named.{are_within};
ghost use Rattle.hunt_words.specs.Fitting.{IsRange};
ghost use Rattle.run_ranges.specs.Tables.{IsTable};
ghost use Rattle.hunt_texts.specs.Tables.{table_text};
ghost use Rattle.hunt_cli.specs.Finds.{FindsTable, IsAnyWithin, broken_in, number_breaks, number_ends, table_exit};
ghost use Rattle.hunt_cli.specs.Finds.{table_report, told_broken};
ghost use Rattle.hunt_cli.specs.Kinds.{kind_with, setting_on};

use crate::exits::Answer;
use crate::ranges::PolicyRuns;
use crate::runs::counted;
use end_claims::{Demand, Place};
use hunt_runs::HuntedMachine;
use hunt_texts::{broken_report, table_text};
use hunt_words::{Runs, Setup};
use rtr_types::Items;
use run_ranges::{Pace, Row, table_of_range};
use std::alloc::{AllocError, Global};
use std::marker::PhantomData;
use std::thread::Threads;

/// What is asked of the table of a range.
#[derive(Clone, Copy)]
pub(crate) struct TableOf<'a> {
    pub(crate) bytes: &'a [u8],
    pub(crate) setup: Setup,
    pub(crate) runs: Runs,
    pub(crate) places: &'a [Place],
    pub(crate) demand: Option<&'a Demand>,
    ghost fits: { Fits setup.params },
    ghost room: { length bytes.now ≤ 4 * setup.params.words },
    ghost range: { IsRange runs.first runs.last },
    ghost demanded: { IsAnyWithin setup.params.cores setup.params.words (option_map (λ d. d.now) demand) },
    ghost placed: { are_within setup.params.cores setup.params.words places.now ≡ true },
}

/// The table of the range: how its runs end, counted. The only refusal is want of memory.
pub(crate) fn table_of<M: HuntedMachine + Sync, R: Threads + Sync, P: Pace>(
    rt: &R,
    alloc: Global,
    pace: &mut P,
    asked: TableOf<'_>,
    threads: usize,
) -> Result<Answer, AllocError>
    requires { 0 < threads }
    ensures { IfOk result (λ a. FindsTable (setting_on (kind_with M.seen_at M.changes_at M.outcome M.most_steps
        M.buffers)
        asked.entry.setup.params asked.entry.bytes.now) asked.entry.runs asked.entry.places.now
        (option_map (λ d. d.now) asked.entry.demand) a.out.items (string_bytes a.report) a.exit) }
{
    let rows = rows_of::<M, R, P>(rt, alloc, pace, asked, threads)?;
    let answer = told(alloc, asked, rows.as_slice())?;
    Ok(answer)
}

/// The rows of the table.
fn rows_of<M: HuntedMachine + Sync, R: Threads + Sync, P: Pace>(
    rt: &R,
    alloc: Global,
    pace: &mut P,
    asked: TableOf<'_>,
    threads: usize,
) -> Result<Items<Row>, AllocError>
    requires { 0 < threads }
    ensures { IfOk result (λ rows. IsTable (number_ends (setting_on (kind_with M.seen_at M.changes_at M.outcome
        M.most_steps
        M.buffers) asked.entry.setup.params asked.entry.bytes.now) asked.entry.runs.by asked.entry.places.now)
        (number_breaks (setting_on (kind_with M.seen_at M.changes_at M.outcome M.most_steps M.buffers)
        asked.entry.setup.params asked.entry.bytes.now) asked.entry.runs.by (option_map (λ d. d.now) asked.entry.demand)
        []) asked.entry.runs.first (asked.entry.runs.last + 1) rows) }
{
    let counted = counted::<M>(alloc, asked.bytes, asked.setup.params)?;
    let trial: PolicyRuns<'_, M> = PolicyRuns {
        alloc,
        bytes: asked.bytes,
        params: asked.setup.params,
        counted: &counted,
        by: asked.runs.by,
        demand: asked.demand,
        first: &[],
        places: asked.places,
        machine: PhantomData,
    };
    let from = asked.runs.first;
    let to = asked.runs.last + 1;
    let rows = table_of_range(rt, alloc, &trial, pace, from, to, threads);
    pace.over();
    rows
}

/// The table's text, and what is reported of it.
fn told(alloc: Global, asked: TableOf<'_>, rows: &[Row]) -> Result<Answer, AllocError>
    requires { broken_in rows.now < 2 ^ 64 }
    ensures out { IfOk result (λ a. a.out.items ≡ table_text asked.entry.runs.first asked.entry.runs.last
        asked.entry.places.now rows.now (told_broken (option_map (λ d. d.now) asked.entry.demand) rows.now)) }
    ensures report { IfOk result (λ a. string_bytes a.report ≡ table_report asked.entry.runs (broken_in rows.now)) }
    ensures exit { IfOk result (λ a. a.exit ≡ table_exit (broken_in rows.now)) }
{
    let Runs { first, last, .. } = asked.runs;
    let broken = broken_in(rows);
    let claimed = match asked.demand {
        Some(_) => Some(broken),
        None => None,
    };
    let text = table_text(alloc, first, last, asked.places, rows, claimed)?;
    if broken == 0 {
        return Ok(Answer::done(alloc, text.into_bytes()));
    }
    let report = broken_report(alloc, broken, last - first + 1)?;
    Ok(Answer::breaks(text.into_bytes(), report))
}

/// How many of the runs break the demand.
fn broken_in(rows: &[Row]) -> u64
    requires { broken_in rows.now < 2 ^ 64 }
    ensures { result ≡ broken_in rows.now }
{
    let mut broken = 0;
    for row in rows {
        broken += row.broken;
    }
    broken
}
