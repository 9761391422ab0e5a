//! What a run comes to if the other of two instructions goes first.
ghost use Rattle.std.specs.Prelude.{IfOk};
ghost use Rattle.gdb_monitor.specs.OtherWay.{IsOtherTold};

use crate::moves::both_come_next;
use cut_replay::{cut_without, has_instr};
use gdb_commands::{Told, line};
use race_answers::no_instr;
use replay_audit::Audited;
use rtr_types::Instr;
use std::alloc::Global;

/// How each core ends if the second of two instructions goes first where both come next, and the words that then
/// differ. If the log says more of their order, that is told.
pub(crate) fn other_told(alloc: Global, audited: &Audited, at: Instr, next: Instr) -> Told
    ensures { IfOk result (IsOtherTold audited.now at next) }
{
    if !has_instr(audited.recording(), at) {
        return no_instr(alloc, at);
    }
    if !has_instr(audited.recording(), next) {
        return no_instr(alloc, next);
    }
    let cut = cut_without(audited, at)?;
    if both_come_next(&cut, at, next) {
        what_if::other_told(alloc, audited, &cut, next.core)
    } else {
        line(alloc, "no decision: the log says more of their order")
    }
}
