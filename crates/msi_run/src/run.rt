//! The run of an image.
ghost use Rattle.std.specs.Prelude.{◌≡◌, IfOk};
ghost use Rattle.run_steps.specs.Ways.{IsSetUp};
ghost use Rattle.run_outcome.specs.Outcomes.{end_of};
ghost use Rattle.machine_plain.specs.Plain.{plain};
ghost use Rattle.msi_state.specs.Runs.{IsRunEnd};
ghost use Rattle.run_outcome.specs.Outcomes.{StandsAt, outcome_of};
ghost use Rattle.schedule_pick.specs.Choices.{choice_at};

use access_times::{NoCarry, NoRider};
use image_mem::Image;
use msi_machine::Machine;
use rtr_types::Params;
use run_steps::{LoadClerk, Made, Running, Stepping, outcome_at_end, run_to_end};
use rv_core::Outcome;
use schedule_pick::Schedule;
use std::alloc::Global;

/// What a run came to, and the image that it was of.
#[derive(Drop)]
pub struct Ran {
    /// The cores, the final memory and what each core's loads got.
    pub outcome: Outcome,
    /// The image that was run.
    pub image: Image,
}

/// Runs the image on the machine to its end, under the schedule. Nothing rides on copies and messages, and
/// no log is made. The only refusal is want of memory.
///
/// The outcome is one function of image, parameters and schedule: that of the run which the recorder records, taken where
/// the run ends, each core's program being done.
pub fn run_image(alloc: Global, image: Image, params: Params, schedule: Schedule) -> Made<Ran>
    requires { IsSetUp image params }
    ensures outcome { IfOk result (λ ran. ran.outcome ≡ outcome_of image params schedule) }
    ensures ended { IfOk result (λ ran. IsRunEnd image params (choice_at schedule)
        (end_of image params (choice_at schedule))) }
    ensures image { IfOk result (λ ran. ran.image ≡ image) }
{
    let clerk = LoadClerk::new(alloc, params.cores)?;
    let machine = Machine::<NoRider, NoCarry>::new(alloc, image, params)?;
    let ended = run_to_end::<Runner>(machine, clerk, schedule)?;
    let loads = ended.clerk.into_loads();
    let outcome = outcome_at_end(alloc, &ended.machine, loads, params)?;
    Ok(Ran {
        outcome,
        image: ended.machine.into_image(),
    })
}

/// How the machine is stepped where no log is made.
struct Runner;

impl Stepping for Runner {
    type Machine = Machine<NoRider, NoCarry>;

    type Clerk = LoadClerk;

    ghost stands = { λ r image params schedule t.
        StandsAt image params schedule t (plain r.machine.state) r.clerk.lists r.choices };

    ghost ready = { λ r. Unit {0} };

    fn turn(run: &mut Running<Self::Machine, Self::Clerk>) -> Made<()> {
        run.machine.make_room()?;
        run.clerk.make_room()?;
        run.machine.step(run.choices.next(), &mut run.clerk);
        Ok(())
    }
}
