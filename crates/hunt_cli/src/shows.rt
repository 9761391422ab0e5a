//! Runs that are shown.
ghost use Rattle.std.specs.Prelude.{◌≡◌, ◌++◌, OnOk, length, string_bytes, true};
ghost use Rattle.std.specs.Option.{option_map};
ghost use Rattle.end_claims.specs.Demands.{demand_places};
ghost use Rattle.end_claims.specs.Ends.{values_at};
ghost use Rattle.end_claims.specs.Named.{are_within};
ghost use Rattle.hunt_texts.specs.Shown.{shown_text};
ghost use Rattle.hunt_cli.specs.Finds.{shown_of};
ghost use Rattle.hunt_cli.specs.Inputs.{words_of};
ghost use Rattle.hunt_cli.specs.RunEnds.{end_in};

use crate::ends::RunEnd;
use end_claims::{Demand, demand_places};
use hunt_runs::HuntedMachine;
use hunt_texts::{Shown, put_shown};
use hunt_words::Setup;
use std::alloc::{AllocError, Global};
use turn_lists::Turn;

/// Puts a run that is shown: its turns where these are told, the values of the demand's places at its end, and the line
/// for `rtr`. The only refusal is want of memory.
pub(crate) fn put_run<M: HuntedMachine>(
    alloc: Global,
    text: &mut String,
    setup: &Setup,
    demand: &Demand,
    turns: Option<&[Turn]>,
    run: RunEnd<M>,
) -> Result<(), AllocError>
    requires { are_within (length run.outcome.cores) run.image.words (demand_places setup.now.params.cores demand.now)
        ≡ true }
    ensures { OnOk result (string_bytes text.new ≡ string_bytes text.old ++ shown_text (shown_of setup.now demand.now
        (option_map (λ ts. ts.now) turns.entry) (end_in run) (words_of setup.now run.choices run.seed))) }
{
    let places = demand_places(alloc, setup.params.cores, demand)?;
    let values = run.values(alloc, places.as_slice())?;
    let words = run.into_words(setup);
    put_shown(
        alloc,
        text,
        Shown {
            turns,
            places: places.as_slice(),
            values: values.as_slice(),
            tso: setup.tso,
            run: &words,
        },
    )
}
