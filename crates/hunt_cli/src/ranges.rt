//! The runs of a range, as one asks of them.
ghost use Rattle.std.specs.Prelude.{◌≡◌, ◌*◌, ◌≤◌, IfOk, length, true};
ghost use Rattle.std.specs.Option.{option_map};
ghost use Rattle.rtr_types.specs.Parameters.{Fits};
ghost use Rattle.end_claims.specs.Named.{are_within};
ghost use Rattle.hunt_cli.specs.Finds.{IsAnyWithin, choices_at, number_breaks, number_ends};
ghost use Rattle.hunt_cli.specs.Kinds.{image_in, kind_with, picks, setting_on};
ghost use Rattle.hunt_cli.specs.RunEnds.{IsRunUnder};

use crate::ends::RunEnd;
use crate::images::machine;
use crate::runs::numbered;
use end_claims::{Demand, Place};
use hunt_runs::{Counted, HuntedMachine};
use rtr_types::Params;
use run_ranges::{Asked, Row, Runs, Seen, Trial, first_in, table_in};
use std::alloc::{AllocError, Global};
use std::marker::PhantomData;
use turn_policies::Named;

/// The runs of a policy, of an image of whose straight run these are the counts, as one asks of them.
#[derive(Drop)]
pub(crate) struct PolicyRuns<'a, M: HuntedMachine> {
    pub(crate) alloc: Global,
    /// The image's bytes.
    pub(crate) bytes: &'a [u8],
    pub(crate) params: Params,
    pub(crate) counted: &'a Counted,
    pub(crate) by: Named,
    /// What is demanded of the runs, where something is.
    pub(crate) demand: Option<&'a Demand>,
    /// The values that the range's first run ends with at the places of `Same`.
    pub(crate) first: &'a [u32],
    /// The places that are seen.
    pub(crate) places: &'a [Place],
    pub(crate) machine: PhantomData<M>,
    ghost fits: { Fits params },
    ghost room: { length bytes.now ≤ 4 * params.words },
    ghost counts: { counted.now ≡ picks (setting_on (kind_with M.seen_at M.changes_at M.outcome M.most_steps
        M.buffers) params
        bytes.now) },
    ghost demanded: { IsAnyWithin params.cores params.words (option_map (λ d. d.now) demand) },
    ghost placed: { are_within params.cores params.words places.now ≡ true },
}

impl<M: HuntedMachine> PolicyRuns<'_, M> {
    /// The run with this number.
    fn run(&self, bench: M, number: u64) -> Result<RunEnd<M>, AllocError>
        requires { M.image bench ≡ image_in self.now.params self.now.bytes.now }
        ensures { IfOk result (λ r. let s = setting_on (kind_with M.seen_at M.changes_at M.outcome M.most_steps
            M.buffers)
            self.now.params self.now.bytes.now in IsRunUnder s (choices_at s self.now.by number) r) }
    {
        let numbered_by = self.by.numbered(number);
        let run = numbered::<M>(self.alloc, bench, self.params, self.counted, numbered_by)?;
        Ok(run)
    }
}

impl<M: HuntedMachine> Runs for PolicyRuns<'_, M> {
    type Bench = M;

    ghost serves = { λ runs bench. M.image bench ≡ image_in runs.params runs.bytes.now };

    ghost breaks = { λ runs. number_breaks (setting_on (kind_with M.seen_at M.changes_at M.outcome M.most_steps
        M.buffers)
        runs.params runs.bytes.now) runs.by (option_map (λ demand. demand.now) runs.demand) runs.first.now };

    ghost ends = { λ runs. number_ends (setting_on (kind_with M.seen_at M.changes_at M.outcome M.most_steps M.buffers)
        runs.params runs.bytes.now) runs.by runs.places.now };

    fn bench(&self) -> Result<M, AllocError> {
        machine(self.alloc, self.bytes, self.params)
    }

    fn ask(&self, bench: M, n: u64) -> Result<Asked<M>, AllocError> {
        let run = self.run(bench, n)?;
        let breaks = run.breaks(self.demand, self.first);
        Ok(Asked {
            breaks,
            bench: run.into_machine(),
        })
    }

    fn see(&self, bench: M, n: u64) -> Result<Seen<M>, AllocError> {
        let run = self.run(bench, n)?;
        let breaks = run.breaks(self.demand, self.first);
        let values = run.values(self.alloc, self.places)?;
        Ok(Seen {
            values,
            breaks,
            bench: run.into_machine(),
        })
    }
}

impl<M: HuntedMachine + Sync> Trial for PolicyRuns<'_, M> {
    ghost breaks = { λ runs. number_breaks (setting_on (kind_with M.seen_at M.changes_at M.outcome M.most_steps
        M.buffers)
        runs.params runs.bytes.now) runs.by (option_map (λ demand. demand.now) runs.demand) runs.first.now };

    ghost ends = { λ runs. number_ends (setting_on (kind_with M.seen_at M.changes_at M.outcome M.most_steps M.buffers)
        runs.params runs.bytes.now) runs.by runs.places.now };

    fn first(&self, from: u64, to: u64) -> Result<Option<u64>, AllocError> {
        first_in(self, from, to)
    }

    fn table(&self, alloc: Global, from: u64, to: u64) -> Result<Vec<Row>, AllocError> {
        table_in(alloc, self, from, to)
    }
}
