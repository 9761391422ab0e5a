//! The end of a run that was made.
ghost use Rattle.std.specs.Prelude.{◌≡◌, IfOk, [], length, true};
ghost use Rattle.std.specs.Option.{option_map};
ghost use Rattle.end_claims.specs.Demands.{is_demanded_within};
ghost use Rattle.end_claims.specs.Ends.{end_of, values_at};
ghost use Rattle.end_claims.specs.Named.{are_within};
ghost use Rattle.run_steps.specs.Ends.{outcome_with};
ghost use Rattle.hunt_cli.specs.Finds.{IsAnyWithin, breaks_any};
ghost use Rattle.hunt_cli.specs.Inputs.{words_of};
ghost use Rattle.hunt_cli.specs.RunEnds.{RunEnd, end_in};

use end_claims::{Demand, Place, breaks, values_at};
use hunt_runs::{AtEnd, Ended, HuntedMachine};
use hunt_words::Setup;
use rtr_types::Items;
use std::alloc::{AllocError, Global};
use std::marker::Model;
use tool_words::RunWords;

/// The end of a run that was made.
#[derive(Drop)]
pub(crate) struct RunEnd<M: HuntedMachine> {
    ended: Ended<M>,
    cores: u8,
}

impl<M: HuntedMachine> Model for RunEnd<M> {
    ghost use Rattle.std.specs.Prelude.{◌≡◌, [], length, true};
    ghost use Rattle.run_steps.specs.Ends.{outcome_with};
    ghost use Rattle.hunt_cli.specs.RunEnds.{RunEnd};

    ghost Value = { RunEnd };

    ghost view = { λ r. record {
      choices = r.ended.choices;
      seed = r.ended.seed;
      image = M.image r.ended.machine;
      outcome = outcome_with (M.cores r.ended.machine) (M.words r.ended.machine) (M.image r.ended.machine).words [];
    } };

    ghost invariant = { λ r. (M.ended r.ended.machine ≡ true) × (r.cores ≡ length (M.cores r.ended.machine)) };
}

impl<M: HuntedMachine> RunEnd<M> {
    /// The end of a run on so many cores.
    pub(crate) fn of(ended: Ended<M>, cores: u8) -> RunEnd<M>
        requires ended { M.ended ended.machine ≡ true }
        requires many { cores ≡ length (M.cores ended.machine) }
        ensures choices { result.choices ≡ ended.choices }
        ensures seed { result.seed ≡ ended.seed }
        ensures image { result.image ≡ M.image ended.machine }
        ensures outcome { result.outcome ≡ outcome_with (M.cores ended.machine) (M.words ended.machine)
            (M.image ended.machine).words [] }
    {
        RunEnd { ended, cores }
    }

    /// The end, as one that can be asked.
    fn asked(&self) -> AtEnd<'_, M>
        ensures { end_of (M.image result.machine.now) (outcome_with (M.cores result.machine.now)
            (M.words result.machine.now) (M.image result.machine.now).words []) ≡ end_in self.now }
    {
        AtEnd {
            machine: &self.ended.machine,
            cores: self.cores,
        }
    }

    /// Whether the end breaks what is demanded, where something is, and the range's first run has these values at the
    /// places of `Same`.
    pub(crate) fn breaks(&self, demand: Option<&Demand>, first: &[u32]) -> bool
        requires { IsAnyWithin (length self.now.outcome.cores) self.now.image.words (option_map (λ d. d.now) demand) }
        ensures { result ≡ breaks_any (end_in self.now) (option_map (λ d. d.now) demand.entry) first.now }
    {
        match demand {
            Some(demand) => breaks(&self.asked(), demand, first),
            None => false,
        }
    }

    /// The values of the places at the end. The only refusal is want of memory.
    pub(crate) fn values(&self, alloc: Global, places: &[Place]) -> Result<Items<u32>, AllocError>
        requires { are_within (length self.now.outcome.cores) self.now.image.words places.now ≡ true }
        ensures { IfOk result (λ values. values ≡ values_at (end_in self.now) places.now) }
    {
        values_at(alloc, &self.asked(), places)
    }

    /// How many choices were noted in the run.
    pub(crate) fn noted(&self) -> usize
        ensures { result ≡ length self.now.choices }
    {
        self.ended.choices.len()
    }

    /// The choice bytes of the run, and the seed.
    pub(crate) fn into_choices(self) -> (Items<u8>, u64)
        ensures choices { result.0 ≡ self.choices }
        ensures seed { result.1 ≡ self.seed }
    {
        let RunEnd {
            ended,
            cores: _cores,
        } = self;
        let Ended {
            choices,
            seed,
            machine: _machine,
        } = ended;
        (choices, seed)
    }

    /// The run as `rtr` records it.
    pub(crate) fn into_words(self, setup: &Setup) -> RunWords
        ensures { result ≡ words_of setup.now self.choices self.seed }
    {
        let (choices, seed) = self.into_choices();
        RunWords {
            params: setup.params,
            choices,
            seed,
            elf: setup.elf,
        }
    }

    /// The machine that made it, for the next run.
    pub(crate) fn into_machine(self) -> M
        ensures { M.image result ≡ self.image }
    {
        let RunEnd {
            ended,
            cores: _cores,
        } = self;
        ended.into_machine()
    }
}
