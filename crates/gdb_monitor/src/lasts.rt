//! Back to the last write of a word.
ghost use Rattle.std.specs.Prelude.{◌≡◌, IfOk, OnErr};
ghost use Rattle.debug_place.specs.Places.{IsKept};
ghost use Rattle.gdb_moves.specs.Sights.{IsOf};
ghost use Rattle.gdb_monitor.specs.Moves.{GoesBefore, GoesToLast};

use crate::moves::go;
use cut_replay::{cut_without, has_instr};
use debug_place::Place;
use gdb_commands::{Told, line};
use race_answers::no_instr;
use race_queries::last_write;
use replay_audit::Audited;
use rtr_types::Instr;
use std::alloc::Global;

/// To where the last write of a word, by its index, so far comes next. Once more goes to the one before.
pub(crate) fn go_to_last(alloc: Global, audited: &Audited, place: &mut Place, word: u32) -> Told
    requires { IsOf audited.now place.old }
    ensures kept { IsKept place.old place.new }
    ensures ok { IfOk result (GoesToLast word place.old place.new) }
    ensures err { OnErr result (place.new ≡ place.old) }
{
    // The audit passed.
    let _ = audited.outcome();
    match last_write(audited, &place.cut(), word) {
        Some(access) => go_before(alloc, audited, place, access.at),
        None => line(alloc, "no write: the opening value"),
    }
}

/// To the greatest closed cut without an instruction.
fn go_before(alloc: Global, audited: &Audited, place: &mut Place, at: Instr) -> Told
    requires { IsOf audited.now place.old }
    ensures kept { IsKept place.old place.new }
    ensures ok { IfOk result (GoesBefore at place.old place.new) }
    ensures err { OnErr result (place.new ≡ place.old) }
{
    if !has_instr(audited.recording(), at) {
        return no_instr(alloc, at);
    }
    let to = cut_without(audited, at)?;
    go(alloc, place, &to)
}
