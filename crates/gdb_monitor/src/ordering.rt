//! Which of two instructions comes first.
ghost use Rattle.std.specs.Prelude.{◌≡◌, IfOk};
ghost use Rattle.gdb_moves.specs.Sights.{IsOf};
ghost use Rattle.gdb_monitor.specs.Ordering.{AreBoth, IsOrder, IsOrderTold};
ghost use Rattle.gdb_commands.specs.Lines.{line};

use cut_replay::has_instr;
use debug_place::Place;
use gdb_commands::line;
use race_answers::no_instr;
use race_queries::leads_to;
use replay_audit::Audited;
use rtr_types::{Instr, Items};
use std::alloc::{AllocError, Global};

/// Which of two instructions comes first, in a word.
pub(crate) fn order_told(
    alloc: Global,
    audited: &Audited,
    _place: &Place,
    at: Instr,
    other: Instr,
) -> Result<Items<u8>, AllocError>
    requires { IsOf audited.now _place.now }
    ensures { IfOk result (IsOrderTold at other _place.now) }
{
    if !has_instr(audited.recording(), at) {
        return no_instr(alloc, at);
    }
    if !has_instr(audited.recording(), other) {
        return no_instr(alloc, other);
    }
    line(alloc, order_of(audited, at, other))
}

/// The word for how the one instruction stands to the other.
fn order_of(audited: &Audited, at: Instr, other: Instr) -> &'static str
    requires { AreBoth audited.now.recording at other }
    ensures { IsOrder audited.now.which audited.now.recording at other result.now }
{
    if at == other {
        "same"
    } else if leads_to(audited, at, other) {
        "before"
    } else if leads_to(audited, other, at) {
        "after"
    } else {
        "unordered"
    }
}
