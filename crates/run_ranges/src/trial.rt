//! What is asked of the runs of a range.
ghost use Rattle.std.specs.Prelude.{◌≡◌, ◌*◌, ◌<◌, ◌≤◌, ℕ, Bool, List, IfOk};
ghost use Rattle.run_ranges.specs.Firsts.{IsFirst};
ghost use Rattle.run_ranges.specs.Tables.{IsTable};

use crate::rows::Row;
use rtr_types::Items;
use std::alloc::{AllocError, Global};

/// Whether a run breaks the claim, and what the next run is made on.
pub struct Asked<B> {
    /// Whether its end breaks the claim.
    pub breaks: bool,
    /// What the next run is made on.
    pub bench: B,
}

impl<B> Asked<B> {
    /// What the next run is made on.
    pub fn into_bench(self) -> B
        ensures { result ≡ self.bench }
    {
        let Asked {
            breaks: _breaks,
            bench,
        } = self;
        bench
    }
}

impl<B: Drop> Drop for Asked<B> {
    fn drop(self) {
        let Asked {
            breaks: _breaks,
            bench: _bench,
        } = self;
    }
}

/// How a run ends, and what the next run is made on.
pub struct Seen<B> {
    /// The values that it ends with.
    pub values: Items<u32>,
    /// Whether its end breaks the claim.
    pub breaks: bool,
    /// What the next run is made on.
    pub bench: B,
}

impl<B> Seen<B> {
    /// The values that the run ends with, and what the next run is made on.
    pub fn into_parts(self) -> (Items<u32>, B)
        ensures values { result.0 ≡ self.values }
        ensures bench { result.1 ≡ self.bench }
    {
        let Seen {
            values,
            breaks: _breaks,
            bench,
        } = self;
        (values, bench)
    }
}

impl<B: Drop> Drop for Seen<B> {
    fn drop(self) {
        let Seen {
            values: _values,
            breaks: _breaks,
            bench: _bench,
        } = self;
    }
}

/// Runs with numbers, which one thread makes one after the other. The only refusal is want of memory.
pub trait Runs {
    /// What runs are made on, one after the other.
    type Bench: Drop;

    /// Runs can be made on it.
    ghost serves: { Self → Self.Bench → Type 0 };

    /// The end of the run with this number breaks the claim.
    ghost breaks: { Self → ℕ → Bool };

    /// The values that the run with this number ends with.
    ghost ends: { Self → ℕ → List ℕ };

    /// What the first run is made on.
    fn bench(&self) -> Result<Self::Bench, AllocError>
        ensures { IfOk result (λ bench. serves self.now bench) };

    /// Whether the end of the run with this number breaks the claim.
    fn ask(&self, bench: Self::Bench, n: u64) -> Result<Asked<Self::Bench>, AllocError>
        requires { serves self.now bench }
        ensures breaks { IfOk result (λ asked. asked.breaks ≡ breaks self.now n) }
        ensures bench { IfOk result (λ asked. serves self.now asked.bench) };

    /// How the run with this number ends.
    fn see(&self, bench: Self::Bench, n: u64) -> Result<Seen<Self::Bench>, AllocError>
        requires { serves self.now bench }
        ensures values { IfOk result (λ seen. seen.values ≡ ends self.now n) }
        ensures breaks { IfOk result (λ seen. seen.breaks ≡ breaks self.now n) }
        ensures bench { IfOk result (λ seen. serves self.now seen.bench) };
}

/// What can be asked of a batch of runs, in any thread. The only refusal is want of memory.
pub trait Trial: Sync {
    /// The end of the run with this number breaks the claim.
    ghost breaks: { Self → ℕ → Bool };

    /// The values that the run with this number ends with.
    ghost ends: { Self → ℕ → List ℕ };

    /// The first of the runs from `from` up to below `to` that breaks the claim.
    fn first(&self, from: u64, to: u64) -> Result<Option<u64>, AllocError>
        requires { from ≤ to }
        ensures { IfOk result (λ found. IsFirst (breaks self.now) from to found) };

    /// The table of the runs from `from` up to below `to`.
    fn table(&self, alloc: Global, from: u64, to: u64) -> Result<Vec<Row>, AllocError>
        requires { from ≤ to }
        ensures { IfOk result (λ rows. IsTable (ends self.now) (breaks self.now) from to rows.items) };
}

/// How many runs each thread makes before all are waited for. Nothing that is answered rests on it.
pub trait Pace {
    /// The greatest length of the next batches, where so many runs have been made.
    fn batch(&mut self, done: u64) -> u64
        ensures { 0 < result };

    /// Hears from who asked of the range that no batches follow.
    fn over(&mut self);
}

/// The length of the next batches, one for each thread: no more than the pace says, and together no more than are left.
pub(crate) fn batch_of<P: Pace>(pace: &mut P, done: u64, left: u64, threads: usize) -> u64
    requires threads { 0 < threads }
    requires enough { threads ≤ left }
    ensures some { 0 < result }
    ensures within { result * threads ≤ left }
{
    (left / threads as u64).min(pace.batch(done))
}
