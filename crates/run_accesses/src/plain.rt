//! The accesses of a run of cores without store buffers.
ghost use Rattle.std.specs.Prelude.{◌≡◌, IfOk};
ghost use Rattle.run_accesses.specs.Accesses.{StandsAt, accesses_of};
ghost use Rattle.run_steps.specs.Ways.{IsSetUp};
ghost use Rattle.machine_plain.specs.Plain.{plain};

use crate::clerk::AccessClerk;
use access_times::{NoCarry, NoRider};
use image_mem::Image;
use msi_machine::Machine;
use rtr_types::{Access, Items, Params};
use run_steps::{Made, Running, Stepping, run_to_end};
use schedule_pick::Schedule;
use std::alloc::Global;

/// The accesses of a run, and the image that it was of.
#[derive(Drop)]
pub struct Noted {
    /// The accesses, in the order in which they were made.
    pub accesses: Items<Access>,
    /// The image that was run.
    pub image: Image,
}

/// The accesses of the run of the image under the schedule, in the order in which their instructions retired. The only
/// refusal is want of memory.
pub fn accesses_of_run(
    alloc: Global,
    image: Image,
    params: Params,
    schedule: Schedule,
) -> Made<Noted>
    requires { IsSetUp image params }
    ensures accesses { IfOk result (λ noted. noted.accesses ≡ accesses_of image params schedule) }
    ensures image { IfOk result (λ noted. noted.image ≡ image) }
{
    let clerk = AccessClerk::new(alloc);
    let machine = Machine::<NoRider, NoCarry>::new(alloc, image, params)?;
    let ended = run_to_end::<Runner>(machine, clerk, schedule)?;
    Ok(Noted {
        accesses: ended.clerk.into_accesses(),
        image: ended.machine.into_image(),
    })
}

/// How the machine is stepped where its accesses are kept.
struct Runner;

impl Stepping for Runner {
    type Machine = Machine<NoRider, NoCarry>;

    type Clerk = AccessClerk;

    ghost stands = { λ r image params schedule t.
        StandsAt image params schedule t (plain r.machine.state) r.clerk.items r.choices };

    ghost ready = { λ r. Unit {0} };

    fn turn(run: &mut Running<Self::Machine, Self::Clerk>) -> Made<()> {
        run.machine.make_room()?;
        run.clerk.make_room()?;
        run.machine.step(run.choices.next(), &mut run.clerk);
        Ok(())
    }
}
