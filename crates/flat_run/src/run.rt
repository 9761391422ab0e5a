//! The run of an image on the flat machine.
ghost use Rattle.std.specs.Prelude.{◌≡◌, ◌<◌, IfOk, OnOk, length};
ghost use Rattle.flat_machine.specs.Machines.{event_of};
ghost use Rattle.flat_run.specs.InRun.{StandsInRun};
ghost use Rattle.msi_state.specs.Events.{Accesses};
ghost use Rattle.msi_state.specs.Runs.{IsRunEnd};
ghost use Rattle.rtr_types.specs.declared.access.Access.{Access};
ghost use Rattle.run_outcome.specs.Loads.{lists_told};
ghost use Rattle.run_outcome.specs.Outcomes.{end_of, outcome_of};
ghost use Rattle.run_steps.specs.Ways.{IsSetUp};
ghost use Rattle.schedule_pick.specs.Choices.{choice_at};

use access_times::{Clerk, NoCarry, NoRider};
use flat_machine::{FlatMachine, Happened};
use image_mem::Image;
use msi_run::Ran;
use rtr_types::Params;
use run_steps::{LoadClerk, Made, Running, Stepping, outcome_at_end, run_to_end};
use schedule_pick::Schedule;
use std::alloc::Global;

/// Runs the image on the flat machine to its end, under the schedule. No log is made. The only refusal is want of memory.
///
/// The outcome is one function of image, parameters and schedule: that of the run which the recorder records, taken where
/// the run ends, each core's program being done.
pub fn run_flat(alloc: Global, image: Image, params: Params, schedule: Schedule) -> Made<Ran>
    requires { IsSetUp image params }
    ensures outcome { IfOk result (λ ran. ran.outcome ≡ outcome_of image params schedule) }
    ensures ended { IfOk result (λ ran. IsRunEnd image params (choice_at schedule)
        (end_of image params (choice_at schedule))) }
    ensures image { IfOk result (λ ran. ran.image ≡ image) }
{
    let clerk = LoadClerk::new(alloc, params.cores)?;
    let machine = FlatMachine::new(alloc, image, params)?;
    let ended = run_to_end::<FlatRunner>(machine, clerk, schedule)?;
    let loads = ended.clerk.into_loads();
    let outcome = outcome_at_end(alloc, &ended.machine, loads, params)?;
    Ok(Ran {
        outcome,
        image: ended.machine.flat.program.into_image(),
    })
}

/// How the flat machine is stepped where no log is made.
struct FlatRunner;

impl Stepping for FlatRunner {
    type Machine = FlatMachine;

    type Clerk = LoadClerk;

    ghost stands = { λ r image params schedule t. StandsInRun r.machine r.clerk.lists r.choices image params schedule t };

    ghost ready = { λ r. Unit {0} };

    fn turn(run: &mut Running<Self::Machine, Self::Clerk>) -> Made<()> {
        let happened = run.machine.step(run.choices.next())?;
        tell(&mut run.clerk, happened)?;
        Ok(())
    }
}

/// Tells the clerk what happened in a step. The only refusal is want of memory.
fn tell(clerk: &mut LoadClerk, happened: Happened) -> Made<()>
    requires { (access : Access) → event_of happened ≡ Accesses access → access.at.core < length clerk.old.lists }
    ensures { OnOk result (clerk.new.lists ≡ lists_told clerk.old.lists (event_of happened)) }
{
    if let Happened::Accessed(access) = happened {
        clerk.make_room()?;
        clerk.touched(access, &mut NoRider, &NoCarry);
    }
    Ok(())
}
