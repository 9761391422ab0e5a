//! How long the batches of a round are.
ghost use Rattle.std.specs.Prelude.{◌≡◌, ◌<◌, ◌≤◌};
ghost use Rattle.run_ranges.specs.Batches.{batch_after};
ghost use Rattle.run_ranges.specs.declared.batches.TheConstants.{RUNS_MAX};

/// A round that takes fewer milliseconds is short.
const SHORT: u64 = 100;

/// A round that takes more milliseconds is long.
const LONG: u64 = 200;

/// The most runs of a batch.
const RUNS_MAX: u64 = 1_048_576;

/// How many runs each thread makes in a round: from 1 to 1,048,576.
#[derive(Clone, Copy)]
pub struct Batch {
    pub runs: u64,
    ghost some: { 0 < runs },
    ghost few: { runs ≤ RUNS_MAX },
}

impl Batch {
    /// That of the first round: one run.
    pub fn one() -> Batch
        ensures { result.runs ≡ 1 }
    {
        Batch { runs: 1 }
    }

    /// That of the next round, where one with this took so many milliseconds: after fewer than 100 twice as many
    /// runs, after more than 200 half as many.
    pub fn after(self, millis: u64) -> Batch
        ensures { result.runs ≡ batch_after self.runs millis }
    {
        let runs = if millis < SHORT {
            (self.runs * 2).min(RUNS_MAX)
        } else if millis > LONG {
            (self.runs / 2).max(1)
        } else {
            self.runs
        };
        Batch { runs }
    }
}
