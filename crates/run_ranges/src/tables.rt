//! The table of a range.
ghost use Rattle.std.specs.Prelude.{◌≡◌, ℕ, ◌+◌, ◌*◌, ◌^◌, ◌<◌, ◌≤◌, IfOk, OnOk, sum_by, vec_len};
ghost use Rattle.run_ranges.specs.Rounds.{AreTables};
ghost use Rattle.run_ranges.specs.Tables.{IsTable, merged};

use crate::rows::{Row, add_row, single};
use crate::trial::{Pace, Runs, Trial, batch_of};
use rtr_types::Items;
use std::alloc::{AllocError, Global};
use std::thread;
use std::thread::Threads;

/// The table of the runs from `from` up to below `to`, made one after the other. The only refusal is want of memory.
pub fn table_in<T: Runs>(
    alloc: Global,
    runs: &T,
    from: u64,
    to: u64,
) -> Result<Vec<Row>, AllocError>
    requires { from ≤ to }
    ensures { IfOk result (λ rows. IsTable (T.ends runs.now) (T.breaks runs.now) from to rows.items) }
{
    let mut rows = Vec::new(alloc);
    let mut bench = runs.bench()?;
    for n in from..to {
        let seen = runs.see(bench, n)?;
        let breaks = seen.breaks;
        let (values, next) = seen.into_parts();
        bench = next;
        add_row(&mut rows, single(values, breaks, n))?;
    }
    Ok(rows)
}

/// Adds the rows of a later table. The only refusal is want of memory.
fn merge(rows: &mut Vec<Row>, later: Vec<Row>) -> Result<(), AllocError>
    requires counts { sum_by (λ r. r.count) rows.old.items + sum_by (λ r. r.count) later.items < 2 ^ 64 }
    requires broken { sum_by (λ r. r.broken) rows.old.items + sum_by (λ r. r.broken) later.items < 2 ^ 64 }
    ensures { OnOk result (rows.new.items ≡ merged rows.old.items later.items) }
{
    let mut later = later;
    while let Some(row) = later.pop() {
        add_row(rows, row)?;
    }
    Ok(())
}

/// The tables of a round of batches of one length, each made in a thread of its own where one can be made. The only
/// refusal is want of memory.
fn tables_of_round<R: Threads + Sync, T: Trial>(
    rt: &R,
    alloc: Global,
    trial: &T,
    from: u64,
    batch: u64,
    batches: usize,
) -> Result<Vec<Result<Vec<Row>, AllocError>>, AllocError>
    requires { from + batch * batches < 2 ^ 64 }
    ensures many { IfOk result (λ v. vec_len v ≡ batches) }
    ensures each { IfOk result (λ v. AreTables (λ t. t.items) (T.ends trial.now) (T.breaks trial.now) from batch
        v.items) }
{
    thread::map_indices(
        rt,
        alloc,
        batches,
        &|i: usize| -> Result<Vec<Row>, AllocError>
            requires { from + batch * (i + 1) < 2 ^ 64 }
            ensures { IfOk result (λ rows. IsTable (T.ends trial.entry.now) (T.breaks trial.entry.now)
                (from + batch * i) (from + batch * (i + 1)) rows.items) }
        {
            let start = from + batch * i as u64;
            trial.table(alloc, start, start + batch)
        },
    )
}

/// The table of a round of batches of one length. The only refusal is want of memory.
fn table_of_round<R: Threads + Sync, T: Trial>(
    rt: &R,
    alloc: Global,
    trial: &T,
    from: u64,
    batch: u64,
    batches: usize,
) -> Result<Vec<Row>, AllocError>
    requires { from + batch * batches < 2 ^ 64 }
    ensures { IfOk result (λ rows. IsTable (T.ends trial.now) (T.breaks trial.now) from (from + batch * batches)
        rows.items) }
{
    let mut tables = tables_of_round(rt, alloc, trial, from, batch, batches)?;
    let mut all = Vec::new(alloc);
    while let Some(table) = tables.pop() {
        let mut rows = table?;
        merge(&mut rows, all)?;
        all = rows;
    }
    Ok(all)
}

/// The table of the runs from `from` up to below `to`, whatever the number of threads and the pace. The only refusal is
/// want of memory.
pub fn table_of_range<R: Threads + Sync, T: Trial, P: Pace>(
    rt: &R,
    alloc: Global,
    trial: &T,
    pace: &mut P,
    from: u64,
    to: u64,
    threads: usize,
) -> Result<Items<Row>, AllocError>
    requires order { from ≤ to }
    requires threads { 0 < threads }
    ensures { IfOk result (λ rows. IsTable (T.ends trial.now) (T.breaks trial.now) from to rows) }
{
    let mut rows = Vec::new(alloc);
    let mut at = from;
    while to - at >= threads as u64 {
        let batch = batch_of(pace, at - from, to - at, threads);
        let table = table_of_round(rt, alloc, trial, at, batch, threads)?;
        merge(&mut rows, table)?;
        at += batch * threads as u64;
    }
    let last = trial.table(alloc, at, to)?;
    merge(&mut rows, last)?;
    Ok(Items::from_vec(rows))
}
