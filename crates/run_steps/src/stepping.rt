//! What is stepped until no step is left.
ghost use Rattle.std.specs.Prelude.{◌≡◌, ◌<◌, ℕ, suc, IfOk, OnOk, false, true};
ghost use Rattle.image_mem.specs.Contents.{Contents};
ghost use Rattle.rtr_types.specs.declared.params.Params.{Params};
ghost use Rattle.schedule_pick.specs.Choices.{Choices};
ghost use Rattle.run_steps.specs.Ways.{IsUnderWay, running_with};
ghost use Rattle.run_steps.specs.declared.running.Running.{Running};

use crate::running::{Made, Running};
use machine_ports::SteppedMachine;
use schedule_pick::Schedule;

/// How runs of one kind are stepped: which machine is, who is told of its steps, and what a turn does.
pub trait Stepping {
    /// The machine.
    type Machine: SteppedMachine + Drop;

    /// Who is told of its steps.
    type Clerk: Drop;

    /// It stands so many choices into the run of an image with these parameters under a schedule.
    ghost stands: { Running Self.Machine Self.Clerk → Contents → Params → Choices → ℕ → Type 0 };

    /// What a turn rests on beside that, as room that was made before.
    ghost ready: { Running Self.Machine Self.Clerk → Type 0 };

    /// One step of the machine, with the room for it. The only refusal is want of memory.
    fn turn(run: &mut Running<Self::Machine, Self::Clerk>) -> Made<()>
        requires going { Self.Machine.ended run.old.machine ≡ false }
        requires under_way { IsUnderWay (stands run.old) }
        requires ready { ready run.old }
        ensures stands { (image : Contents) (params : Params) (schedule : Choices) (t : ℕ) → OnOk result
            (stands run.old image params schedule t → stands run.new image params schedule (suc t)) }
        ensures ready { OnOk result (ready run.new) }
        ensures image { OnOk result (Self.Machine.image run.new.machine ≡ Self.Machine.image run.old.machine) }
        ensures nearer { OnOk result (Self.Machine.left run.new.machine < Self.Machine.left run.old.machine) };
}

/// Steps the machine until no step is left, through whichever run it is on the way. The only refusal is want of memory.
pub fn run_to_end<S: Stepping>(
    machine: S::Machine,
    clerk: S::Clerk,
    choices: Schedule,
) -> Made<Running<S::Machine, S::Clerk>>
    requires under_way { IsUnderWay (S.stands (running_with machine clerk choices)) }
    requires ready { S.ready (running_with machine clerk choices) }
    ensures stands { IfOk result (λ run. (image : Contents) (params : Params) (schedule : Choices) (t : ℕ)
        → S.stands (running_with machine clerk choices) image params schedule t
        → (u : ℕ) × S.stands run image params schedule u) }
    ensures image { IfOk result (λ run. S.Machine.image run.machine ≡ S.Machine.image machine) }
    ensures done { IfOk result (λ run. S.Machine.ended run.machine ≡ true) }
{
    let mut run = Running {
        machine,
        clerk,
        choices,
    };
    while !run.machine.done() {
        S::turn(&mut run)?;
    }
    Ok(run)
}
