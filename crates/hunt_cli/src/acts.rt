//! The acts of a run: its accesses, and who made them. A load whose word is logged is no access that was ordered, so on
//! cores with store buffers a run's acts may lack loads, and its turns then break nothing.
ghost use Rattle.std.specs.Prelude.{◌≡◌, ◌*◌, ◌≤◌, IfOk, length, map};
ghost use Rattle.rtr_types.specs.Parameters.{Fits};
ghost use Rattle.run_steps.specs.Ways.{IsSetUp};
ghost use Rattle.schedule_pick.specs.Choices.{choices_of};
ghost use Rattle.hunt_cli.specs.Kinds.{image_in};
ghost use Rattle.hunt_cli.specs.OwnTurns.{accesses_on, act_of, actor_of, acts_on};

use crate::ends::RunEnd;
use crate::images::image;
use hunt_runs::HuntedMachine;
use image_mem::Image;
use rtr_types::{Access, Items, Kind, Params};
use run_accesses::{Noted, accesses_of_run, tso_accesses_of_run};
use schedule_pick::Schedule;
use small_turns::Act;
use std::alloc::{AllocError, Global};
use turn_lists::Actor;

/// The acts of a run of the image of these bytes. The only refusal is want of memory.
pub(crate) fn acts_of<M: HuntedMachine>(
    alloc: Global,
    bytes: &[u8],
    params: Params,
    run: RunEnd<M>,
) -> Result<Items<Act>, AllocError>
    requires fits { Fits params }
    requires room { length bytes.now ≤ 4 * params.words }
    ensures { IfOk result (λ acts. acts ≡ acts_on M.buffers (image_in params bytes.now) params (choices_of run.choices
        run.seed)) }
{
    let (choices, seed) = run.into_choices();
    let opening = image(bytes.to_vec(alloc)?, params.words);
    let schedule = Schedule::new(choices.into_vec(), seed);
    let buffers = M::has_buffers();
    let noted = noted_on(alloc, buffers, opening, params, schedule)?;
    acts_in(alloc, buffers, noted.accesses.as_slice())
}

/// The accesses of a run of the image, on cores with store buffers or without. The only refusal is want of memory.
fn noted_on(
    alloc: Global,
    buffers: bool,
    opening: Image,
    params: Params,
    schedule: Schedule,
) -> Result<Noted, AllocError>
    requires { IsSetUp opening params }
    ensures { IfOk result (λ noted. noted.accesses ≡ accesses_on buffers opening params schedule) }
{
    if buffers {
        tso_accesses_of_run(alloc, opening, params, schedule)
    } else {
        accesses_of_run(alloc, opening, params, schedule)
    }
}

/// The acts of which these are the accesses.
fn acts_in(alloc: Global, buffers: bool, accesses: &[Access]) -> Result<Items<Act>, AllocError>
    ensures { IfOk result (λ acts. acts ≡ map (act_of buffers) accesses.now) }
{
    let mut acts = Items::new(alloc);
    for access in accesses {
        acts.push(act_of(buffers, *access))?;
    }
    Ok(acts)
}

/// The act of an access.
fn act_of(buffers: bool, access: Access) -> Act
    ensures { result ≡ act_of buffers access }
{
    Act {
        actor: actor_of(buffers, access.kind, access.at.core),
        word: access.word,
        writes: access.kind.is_write(),
    }
}

/// Who makes a core's access: a store its buffer, where it has one, and any other the core.
fn actor_of(buffers: bool, kind: Kind, core: u8) -> Actor
    ensures { result ≡ actor_of buffers kind core }
{
    match kind {
        Kind::Load | Kind::Amo => Actor::Core(core),
        Kind::Store => if buffers {
            Actor::Buffer(core)
        } else {
            Actor::Core(core)
        },
    }
}
