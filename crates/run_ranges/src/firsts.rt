//! The first run of a range that breaks a claim.
ghost use Rattle.std.specs.Prelude.{◌≡◌, ℕ, ◌+◌, ◌*◌, ◌^◌, ◌<◌, ◌≤◌, IfOk};
ghost use Rattle.run_ranges.specs.Firsts.{IsFirst};

use crate::trial::{Pace, Runs, Trial, batch_of};
use std::alloc::{AllocError, Global};
use std::thread;
use std::thread::Threads;

/// The first of the runs from `from` up to below `to` that breaks the claim, made one after the other. The only refusal
/// is want of memory.
pub fn first_in<T: Runs>(runs: &T, from: u64, to: u64) -> Result<Option<u64>, AllocError>
    requires { from ≤ to }
    ensures { IfOk result (λ found. IsFirst (T.breaks runs.now) from to found) }
{
    let mut bench = runs.bench()?;
    for n in from..to {
        let asked = runs.ask(bench, n)?;
        if asked.breaks {
            return Ok(Some(n));
        }
        bench = asked.into_bench();
    }
    Ok(None)
}

/// The first of a round of batches of one length, each asked in a thread of its own where one can be made. The
/// only refusal is want of memory.
fn first_of_round<R: Threads + Sync, T: Trial>(
    rt: &R,
    alloc: Global,
    trial: &T,
    from: u64,
    batch: u64,
    batches: usize,
) -> Result<Option<u64>, AllocError>
    requires { from + batch * batches < 2 ^ 64 }
    ensures { IfOk result (λ found. IsFirst (T.breaks trial.now) from (from + batch * batches) found) }
{
    let found = thread::map_indices(
        rt,
        alloc,
        batches,
        &|i: usize| -> Result<Option<u64>, AllocError>
            requires { from + batch * (i + 1) < 2 ^ 64 }
            ensures { IfOk result (λ f. IsFirst (T.breaks trial.entry.now) (from + batch * i)
                (from + batch * (i + 1)) f) }
        {
            let start = from + batch * i as u64;
            trial.first(start, start + batch)
        },
    )?;
    for i in 0..batches {
        if let Some(n) = found[i]? {
            return Ok(Some(n));
        }
    }
    Ok(None)
}

/// The first of a range that breaks the claim, from `from` up to below `to`, whatever the number of threads and the
/// pace. The only refusal is want of memory.
pub fn first_of_range<R: Threads + Sync, T: Trial, P: Pace>(
    rt: &R,
    alloc: Global,
    trial: &T,
    pace: &mut P,
    from: u64,
    to: u64,
    threads: usize,
) -> Result<Option<u64>, AllocError>
    requires order { from ≤ to }
    requires threads { 0 < threads }
    ensures { IfOk result (λ found. IsFirst (T.breaks trial.now) from to found) }
{
    let mut at = from;
    while to - at >= threads as u64 {
        let batch = batch_of(pace, at - from, to - at, threads);
        let found = first_of_round(rt, alloc, trial, at, batch, threads)?;
        if found.is_some() {
            return Ok(found);
        }
        at += batch * threads as u64;
    }
    trial.first(at, to)
}
