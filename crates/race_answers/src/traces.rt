//! What is told of the instructions of a core around one of them.
ghost use Rattle.std.specs.Prelude.{◌≡◌, ◌+◌, ◌++◌, ◌<◌, ◌^◌, IfOk, OnOk, slice_index, string_bytes};
ghost use Rattle.std.specs.List.{flat_map};
ghost use Rattle.roomy_lists.specs.Lists.{items_in};
ghost use Rattle.race_answers.specs.Traces.{AreTraced, IsTraceTold, around, end_of, start_of, stretch, trace_row};

use crate::edges::put_line;
use crate::missing::no_instr;
use crate::pcs::{Known, known_of};
use cut_replay::has_instr;
use gdb_commands::{Put, Told, bytes_of};
use race_queries::holds;
use replay_audit::Audited;
use rtr_types::{Cut, Instr, Items};
use std::alloc::{AllocError, Global};

/// The instructions of a core from so many before one of them to so many behind it, those marked that aren't in the
/// cut.
pub fn trace_told(alloc: Global, audited: &Audited, cut: &Cut, at: Instr, near: u32) -> Told
    ensures { IfOk result (IsTraceTold audited.now cut.now at near) }
{
    if has_instr(audited.recording(), at) {
        around_told(alloc, audited, cut, at, near)
    } else {
        no_instr(alloc, at)
    }
}

/// The same, around an instruction of the recording.
fn around_told(alloc: Global, audited: &Audited, cut: &Cut, at: Instr, near: u32) -> Told
    ensures { IfOk result (AreTraced audited.now cut.now at near) }
{
    let known = known_of(alloc, audited)?;
    let total = total_in(audited.recording().totals.as_slice(), at.core);
    let list = around(alloc, total, at, near)?;
    let mut text = String::new(alloc);
    put_traced(alloc, &mut text, &known, cut, list.as_slice())?;
    Ok(bytes_of(text))
}

/// A core's total.
pub(crate) fn total_in(totals: &[u32], core: u8) -> u32
    ensures { result ≡ slice_index totals.now core }
{
    totals.get(core as usize).copied().unwrap_or(0)
}

/// Of a core that has so many instructions, those from so many before one of them to so many behind it.
fn around(alloc: Global, total: u32, at: Instr, near: u32) -> Result<Items<Instr>, AllocError>
    ensures { IfOk result (λ list. list ≡ around total at near) }
{
    let from = start_of(at, near);
    let long = end_of(total, at, near).saturating_sub(from);
    stretch(alloc, at.core, from, long)
}

/// How many of the core's instructions come before those that are told.
fn start_of(at: Instr, near: u32) -> u32
    ensures { result ≡ start_of at near }
{
    at.count.saturating_sub(1).saturating_sub(near)
}

/// How many there are up to the last of those that are told.
fn end_of(total: u32, at: Instr, near: u32) -> u32
    ensures { result ≡ end_of total at near }
{
    if total.saturating_sub(at.count) <= near {
        total
    } else {
        at.count + near
    }
}

/// So many instructions of a core, behind its first ones.
fn stretch(alloc: Global, core: u8, from: u32, long: u32) -> Result<Items<Instr>, AllocError>
    requires { from + long < 2 ^ 32 }
    ensures { IfOk result (λ list. list ≡ stretch core from long) }
{
    let mut list = Items::new(alloc);
    for k in 0..long {
        let count = from + k + 1;
        list.push(Instr { core, count })?;
    }
    Ok(list)
}

/// Puts instructions, each in a line, those marked that aren't in the cut.
fn put_traced(alloc: Global, text: &mut String, known: &Known, cut: &Cut, list: &[Instr]) -> Put
    ensures { OnOk result (string_bytes text.new
        ≡ string_bytes text.old
        ++ flat_map (trace_row cut.now (items_in known.now.pcs) known.now.accesses.now) list.now) }
{
    for at in list {
        put_traced_row(alloc, text, known, cut, *at)?;
    }
    Ok(())
}

/// Puts an instruction in a line, marked where it isn't in the cut.
fn put_traced_row(alloc: Global, text: &mut String, known: &Known, cut: &Cut, at: Instr) -> Put
    ensures { OnOk result (string_bytes text.new
        ≡ string_bytes text.old ++ trace_row cut.now (items_in known.now.pcs) known.now.accesses.now at) }
{
    text.push_str(if holds(cut, at) { "  " } else { "+ " })?;
    put_line(alloc, text, known, at)
}
