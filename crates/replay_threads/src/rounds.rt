//! Rounds, in which each group works as long as it gets on.
ghost use Rattle.std.specs.Prelude.{◌≡◌, All, IfOk, IsTrue, false};
ghost use Rattle.replay_audit.specs.Determinate.{IsDeterminate};
ghost use Rattle.replay_threads.specs.declared.groups.Stand.TheVariants.{Ended as AllEnded};
ghost use Rattle.replay_threads.specs.Groups.{AllAt, AllDone, AreKept, IsOpenAt};

use crate::groups::{Group, Stand, one_round, stand_of_all};
use replay_table::{Gate, Job, ReplayTable};
use std::alloc::AllocError;
use std::sync::Wait;
use std::thread::Threads;

/// One round, in which each group works as long as it gets on. Answers how the groups stand then, taken together.
fn round<J: Job + Send + Sync, R: Threads + Sync, G: Gate>(
    rt: &R,
    table: &ReplayTable<J>,
    groups: &mut [Group<J>],
    gate: &G,
) -> Stand
    requires { All (λ g. AllAt table.now g.workers) groups.old }
    ensures kept { AreKept table.now groups.old groups.new }
    ensures at { All (λ g. AllAt table.now g.workers) groups.new }
    ensures ended { result ≡ AllEnded → AllDone J.recording groups.new }
    ensures unsure { IsOpenAt J.which J.recording result }
{
    one_round(rt, table, groups, gate);
    stand_of_all(groups)
}

/// Rounds until all workers have ended, or until one can't go on: whether all have ended. It may wait for
/// ever, and its promise holds if it returns.
#[tactic(auto, using(crate::proofs::DealtWorkers::kept_then))]
pub(crate) fn rounds<J: Job + Send + Sync, R: Threads + Wait + Sync, G: Gate>(
    rt: &R,
    table: &ReplayTable<J>,
    groups: &mut [Group<J>],
    gate: &G,
) -> Result<bool, AllocError>
    requires { All (λ g. AllAt table.now g.workers) groups.old }
    ensures kept { AreKept table.now groups.old groups.new }
    ensures ended { IfOk result (λ ended. IsTrue ended → AllDone J.recording groups.new) }
    ensures unsure { IfOk result (λ ended. ended ≡ false → IsDeterminate J.which J.recording → ⊥) }
{
    for _ in rt.forever() {
        match round(rt, table, groups, gate) {
            Stand::Ended => return Ok(true),
            Stand::Unsure => return Ok(false),
            Stand::OutOfMemory => return Err(AllocError),
            Stand::Waiting => {}
        }
    }
    unreachable!()
}
