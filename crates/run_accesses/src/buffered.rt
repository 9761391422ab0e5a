//! The accesses of a run of cores with store buffers.
ghost use Rattle.std.specs.Prelude.{◌≡◌, IfOk};
ghost use Rattle.run_accesses.specs.TsoAccesses.{StandsAt, tso_accesses_of};
ghost use Rattle.run_steps.specs.Ways.{IsSetUp};
ghost use Rattle.tso_plain.specs.Plain.{plain};

use crate::clerk::AccessClerk;
use crate::plain::Noted;
use access_times::{NoCarry, NoRider};
use image_mem::Image;
use rtr_types::Params;
use run_steps::{Made, Running, Stepping, run_to_end};
use schedule_pick::Schedule;
use std::alloc::Global;
use tso_core::BufferedMachine;

/// The accesses that the run of the image on cores with store buffers orders under the schedule, in this order: a store
/// where its buffer writes it. A load that is logged is none of them. The only refusal is want of memory.
pub fn tso_accesses_of_run(
    alloc: Global,
    image: Image,
    params: Params,
    schedule: Schedule,
) -> Made<Noted>
    requires { IsSetUp image params }
    ensures accesses { IfOk result (λ noted. noted.accesses ≡ tso_accesses_of image params schedule) }
    ensures image { IfOk result (λ noted. noted.image ≡ image) }
{
    let clerk = AccessClerk::new(alloc);
    let machine = BufferedMachine::<NoRider, NoCarry>::new(alloc, image, params)?;
    let ended = run_to_end::<Runner>(machine, clerk, schedule)?;
    Ok(Noted {
        accesses: ended.clerk.into_accesses(),
        image: ended.machine.into_image(),
    })
}

/// How the machine is stepped where its accesses are kept.
struct Runner;

impl Stepping for Runner {
    type Machine = BufferedMachine<NoRider, NoCarry>;

    type Clerk = AccessClerk;

    ghost stands = { λ r image params schedule t.
        StandsAt image params schedule t (plain r.machine.state) r.clerk.items r.choices };

    ghost ready = { λ r. Unit {0} };

    fn turn(run: &mut Running<Self::Machine, Self::Clerk>) -> Made<()> {
        run.machine.make_room()?;
        run.clerk.make_room()?;
        run.machine.step(run.choices.next(), &mut run.clerk);
        Ok(())
    }
}
