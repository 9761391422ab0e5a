//! What is told of the accesses with which an instruction's conflicts.
ghost use Rattle.std.specs.Prelude.{◌≡◌, ◌++◌, IfOk, OnOk, string_bytes};
ghost use Rattle.std.specs.List.{flat_map};
ghost use Rattle.roomy_lists.specs.Lists.{items_in};
ghost use Rattle.race_answers.specs.Asking.{AreConflicts, AreConflictsTold, called_row};

use crate::asking::put_line;
use crate::missing::no_instr;
use crate::pcs::{Known, known_of};
use cut_replay::has_instr;
use gdb_commands::{Put, Told, bytes_of, line};
use race_queries::{Conflicts, conflicts_of};
use replay_audit::Audited;
use rtr_types::{Access, Instr};
use std::alloc::Global;

/// An instruction's access, and those with which it conflicts.
pub fn conflicts_told(alloc: Global, audited: &Audited, at: Instr) -> Told
    ensures { IfOk result (AreConflictsTold audited.now at) }
{
    if !has_instr(audited.recording(), at) {
        return no_instr(alloc, at);
    }
    match conflicts_of(alloc, audited, at)? {
        Some(conflicts) => conflicts_at(alloc, audited, &conflicts),
        None => line(alloc, "no access"),
    }
}

/// An access, and those with which it conflicts.
fn conflicts_at(alloc: Global, audited: &Audited, conflicts: &Conflicts) -> Told
    ensures { IfOk result (AreConflicts audited.now conflicts.now) }
{
    let known = known_of(alloc, audited)?;
    let mut text = String::new(alloc);
    put_line(alloc, &mut text, &known, conflicts.access)?;
    put_called(
        alloc,
        &mut text,
        &known,
        "  earlier ",
        conflicts.earlier.as_slice(),
    )?;
    put_called(
        alloc,
        &mut text,
        &known,
        "  later   ",
        conflicts.later.as_slice(),
    )?;
    Ok(bytes_of(text))
}

/// Puts accesses, each in a line, behind what they are called.
fn put_called(alloc: Global, text: &mut String, known: &Known, called: &str, list: &[Access]) -> Put
    ensures { OnOk result (string_bytes text.new
        ≡ string_bytes text.old ++ flat_map (called_row called.now (items_in known.now.pcs)) list.now) }
{
    for access in list {
        text.push_str(called)?;
        put_line(alloc, text, known, *access)?;
    }
    Ok(())
}
