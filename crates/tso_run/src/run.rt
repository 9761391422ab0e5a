//! The run of an image by cores with store buffers.
ghost use Rattle.std.specs.Prelude.{◌≡◌, IfOk};
ghost use Rattle.run_steps.specs.Ways.{IsSetUp};
ghost use Rattle.tso_outcome.specs.Outcomes.{RunEnds, StandsAt, tso_outcome_of};
ghost use Rattle.tso_plain.specs.Plain.{plain};

use access_times::{NoCarry, NoRider};
use image_mem::Image;
use rtr_types::Params;
use run_steps::{LoadClerk, Made, Running, Stepping, outcome_at_end, run_to_end};
use rv_core::Outcome;
use schedule_pick::Schedule;
use std::alloc::Global;
use tso_core::BufferedMachine;

/// Runs the image on cores with store buffers to its end, under the schedule. Nothing rides on copies and messages, and
/// no log is made. The only refusal is want of memory.
///
/// The outcome is one function of image, parameters and schedule: that of the run which `tso_record` records, taken where
/// the run ends, each core's program being done and no access pending. Its loads are all loads and atomic memory
/// operations, each with the word that it got.
pub fn tso_run(alloc: Global, image: Image, params: Params, schedule: Schedule) -> Made<TsoRan>
    requires { IsSetUp image params }
    ensures outcome { IfOk result (λ ran. ran.outcome ≡ tso_outcome_of image params schedule) }
    ensures ended { IfOk result (λ ran. RunEnds image params schedule) }
    ensures image { IfOk result (λ ran. ran.image ≡ image) }
{
    let machine = BufferedMachine::<NoRider, NoCarry>::new(alloc, image, params)?;
    let clerk = LoadClerk::new(alloc, params.cores)?;
    let ended = run_to_end::<Runner>(machine, clerk, schedule)?;
    let loads = ended.clerk.into_loads();
    let outcome = outcome_at_end(alloc, &ended.machine, loads, params)?;
    Ok(TsoRan {
        image: ended.machine.into_image(),
        outcome,
    })
}

/// What a run came to, and the image that it was of.
#[derive(Drop)]
pub struct TsoRan {
    /// The cores, the final memory and what each core's loads and atomic memory operations got.
    pub outcome: Outcome,
    /// The image that was run.
    pub image: Image,
}

/// How cores with store buffers are stepped where no log is made.
struct Runner;

impl Stepping for Runner {
    type Clerk = LoadClerk;

    type Machine = BufferedMachine<NoRider, NoCarry>;

    ghost ready = { λ r. Unit {0} };

    ghost stands = { λ r image params schedule t.
        StandsAt image params schedule t (plain r.machine.state) r.clerk.lists r.choices };

    fn turn(run: &mut Running<Self::Machine, Self::Clerk>) -> Made<()> {
        run.machine.make_room()?;
        run.clerk.make_room()?;
        run.machine.step(run.choices.next(), &mut run.clerk);
        Ok(())
    }
}
