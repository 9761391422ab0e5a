//! What is told of the edges by which an instruction waited.
ghost use Rattle.std.specs.Prelude.{◌≡◌, ◌++◌, IfOk, OnOk, string_bytes};
ghost use Rattle.std.specs.List.{flat_map};
ghost use Rattle.roomy_lists.specs.Lists.{items_in};
ghost use Rattle.race_answers.specs.Asking.{AreWaits, IsWhyTold, indent_text, source_text, wait_row};

use crate::edges::put_line;
use crate::instrs::put_touch;
use crate::missing::no_instr;
use crate::pcs::{Known, known_of};
use cut_replay::has_instr;
use gdb_commands::{Put, Told, bytes_of};
use race_queries::{Ends, log_ends};
use replay_audit::Audited;
use rtr_types::Instr;
use std::alloc::Global;
use wait_chains::chain_of;

/// The most edges of a chain that are told.
pub const CHAIN_MAX: usize = 32;

/// An instruction, and the chain of edges by which it waited.
pub fn why_told(alloc: Global, audited: &Audited, at: Instr) -> Told
    ensures { IfOk result (IsWhyTold audited.now at) }
{
    if has_instr(audited.recording(), at) {
        waits_told(alloc, audited, at)
    } else {
        no_instr(alloc, at)
    }
}

/// An instruction of the recording, and the chain of edges by which it waited.
fn waits_told(alloc: Global, audited: &Audited, at: Instr) -> Told
    ensures { IfOk result (AreWaits audited.now at) }
{
    let known = known_of(alloc, audited)?;
    let all = log_ends(alloc, audited)?;
    let list = chain_of(alloc, all.as_slice(), at, CHAIN_MAX)?;
    let mut text = String::new(alloc);
    put_line(alloc, &mut text, &known, at)?;
    put_waits(alloc, &mut text, &known, list.as_slice())?;
    Ok(bytes_of(text))
}

/// Puts edges, each in a line.
fn put_waits(alloc: Global, text: &mut String, known: &Known, list: &[Ends]) -> Put
    ensures { OnOk result (string_bytes text.new
        ≡ string_bytes text.old ++ flat_map (wait_row (items_in known.now.pcs)) list.now) }
{
    for ends in list {
        put_wait(alloc, text, known, *ends)?;
    }
    Ok(())
}

/// Puts the instruction to which an edge leads, and the one behind which it came.
fn put_wait(alloc: Global, text: &mut String, known: &Known, ends: Ends) -> Put
    ensures { OnOk result (string_bytes text.new
        ≡ string_bytes text.old ++ wait_row (items_in known.now.pcs) ends) }
{
    put_indent(text)?;
    put_touch(alloc, text, known, ends.edge.to, ends.to)?;
    put_source(alloc, text, known, ends)
}

/// Puts what stands before a row.
#[tactic(auto, unfolding(crate::specs::Asking::indent_text))]
fn put_indent(text: &mut String) -> Put
    ensures { OnOk result (string_bytes text.new ≡ string_bytes text.old ++ indent_text) }
{
    text.push_str("  ")
}

/// Puts behind which instruction an edge's second one came, and ends the line.
fn put_source(alloc: Global, text: &mut String, known: &Known, ends: Ends) -> Put
    ensures { OnOk result (string_bytes text.new
        ≡ string_bytes text.old ++ source_text (items_in known.now.pcs) ends) }
{
    text.push_str(" after ")?;
    put_touch(alloc, text, known, ends.edge.from, ends.from)?;
    writeln!(text)
}
