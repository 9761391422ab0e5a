//! What the home's turns, and what happens at a port, change of the marks.
ghost use Rattle.std.specs.Prelude.{◌≡◌, ◌≢◌, ◌<◌, ◌≤◌, ◌&&◌, ℕ, length, nat_lt};
ghost use Rattle.rtr_types.specs.CoreSets.{has};
ghost use Rattle.rtr_types.specs.declared.TheConstants.{CORES_MAX};
ghost use Rattle.msi_directory.specs.Blocks.{entry_at};
ghost use Rattle.msi_directory.specs.Table.{is_free};
ghost use Rattle.msi_memory.specs.Acts.{TakeMessage, TakeResponse, can};
ghost use Rattle.msi_memory.specs.Rests.{hears};
ghost use Rattle.move_marks.specs.Kinds.{set_of};
ghost use Rattle.move_marks.specs.Turns.{IsAfterTurn, differ};
ghost use Rattle.move_marks.specs.declared.marks.MoveKind.{MoveKind};
ghost use Rattle.move_marks.specs.declared.marks.MoveKind.TheVariants.{FromHome, Response};

use crate::marks::{MoveKind, MoveMarks};
use crate::sets::first_of;
use access_times::{Carry, Rider};
use msi_directory::HomeAnswer;
use msi_memory::{MemorySystem, Turn};
use rtr_types::{CORES_MAX, CoreSet};

/// Marks what can be made after the home's turn at one of so many cores: those that it answered have a message, and
/// where its block is free now and wasn't, or was and isn't, so are the requests for the block.
#[inline(always)]
pub fn mark_turn<R: Rider, K: Carry>(
    memory: &MemorySystem<R, K>,
    cores: u32,
    turn: Turn,
    was_free: bool,
    marks: &mut MoveMarks,
)
    requires few { cores ≤ CORES_MAX }
    requires ports { length memory.now.memory.ports ≤ CORES_MAX }
    requires free { turn.free ≡ is_free (entry_at R.riding.fresh memory.now.memory.home turn.block).stage }
    ensures { IsAfterTurn R.riding memory.now.memory cores turn was_free marks.old marks.new }
{
    marks.mark_all(MoveKind::FromHome, hearers(turn.answer, cores));
    if is_other(turn.free, was_free) {
        let askers = memory.askers(turn.block);
        if turn.free {
            marks.mark_all(MoveKind::Request, askers);
        } else {
            marks.clear_all(MoveKind::Request, askers);
        }
    }
}

/// Marks where the home can take a response of the core, and where the core's cache can take a message.
pub fn mark_port<R: Rider, K: Carry>(memory: &MemorySystem<R, K>, core: u8, marks: &mut MoveMarks)
    requires few { length memory.now.memory.ports ≤ CORES_MAX }
    requires here { core < length memory.now.memory.ports }
    ensures response { has (set_of Response marks.new) core
        ≡ can R.riding K.carrying memory.now.memory (TakeResponse core) }
    ensures message { has (set_of FromHome marks.new) core
        ≡ can R.riding K.carrying memory.now.memory (TakeMessage core) }
    ensures others { (k : MoveKind) (c : ℕ) → (k ≡ Response → c ≢ core) → (k ≡ FromHome → c ≢ core)
        → has (set_of k marks.new) c ≡ has (set_of k marks.old) c }
{
    marks.set(MoveKind::Response, core, memory.has_response(core));
    marks.set(MoveKind::FromHome, core, memory.has_message(core));
}

/// Whether the one holds and the other doesn't.
fn is_other(one: bool, other: bool) -> bool
    ensures { result ≡ differ one other }
{
    if one { !other } else { other }
}

/// The cores, of the first so many, that the home's answer goes to.
fn hearers(answer: HomeAnswer<()>, cores: u32) -> CoreSet
    requires { cores ≤ CORES_MAX }
    ensures { (c : ℕ) → has result c ≡ (hears answer c && nat_lt c cores) }
{
    match answer.send {
        Some((to, _message)) => {
            if (to as u32) < cores {
                CoreSet::empty().with(to)
            } else {
                CoreSet::empty()
            }
        }
        None => first_of(answer.invalidate, cores),
    }
}
