//! What is asked for, with every option filled in.

use end_claims::{Demand, Place};
use rtr_types::{Items, Params};
use turn_lists::Turn;
use turn_policies::Named;

/// The machine that all runs of a hunt are made on.
#[derive(Clone, Copy)]
pub struct Setup {
    /// The cores, the limit of each and the words of memory.
    pub params: Params,
    /// Whether the input is an ELF file, and not the image itself. Then the cores have no store buffers.
    pub elf: bool,
    /// Whether the cores have store buffers.
    pub tso: bool,
}

/// The runs that are tried: those of a policy with the numbers from `first` to `last`, which is at least `first` and at
/// most `RUN_MAX`.
#[derive(Clone, Copy)]
pub struct Runs {
    pub by: Named,
    pub first: u64,
    pub last: u64,
    /// How many threads make the runs, 1 to `HUNT_THREADS_MAX`; `None` where the words name no number.
    pub threads: Option<u32>,
}

/// One run, by its name.
#[derive(Drop)]
pub enum RunName {
    /// The run of a policy with this number.
    Numbered { by: Named, number: u64 },
    /// The run by these turns, each of an actor that there may be, with a count from 1 to `COUNT_MAX`.
    Turns(Items<Turn>),
}

/// What is asked for, with every option filled in. The machine of the setup has each core and word that a demand or a
/// place names.
#[derive(Drop)]
pub enum Hunt {
    /// Find the first run that breaks the demand, and show it; unless `plain`, made small before.
    First {
        setup: Setup,
        runs: Runs,
        demand: Demand,
        plain: bool,
    },
    /// Count how the runs end at the places, and which break the demand.
    Table {
        setup: Setup,
        runs: Runs,
        places: Items<Place>,
        demand: Option<Demand>,
    },
    /// Make the run's turns small, so that they break the demand still.
    Small {
        setup: Setup,
        run: RunName,
        demand: Demand,
    },
    /// Print the words by which `rtr` records the run.
    Words {
        setup: Setup,
        run: RunName,
    },
    /// Record the run.
    Record {
        setup: Setup,
        run: RunName,
    },
}
