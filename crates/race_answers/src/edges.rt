//! What is told of the edges at an instruction.
ghost use Rattle.std.specs.Prelude.{◌≡◌, ◌++◌, IfOk, OnOk, string_bytes};
ghost use Rattle.std.specs.List.{flat_map};
ghost use Rattle.roomy_lists.specs.Lists.{items_in};
ghost use Rattle.race_answers.specs.Asking.{AreEdges, AreEdgesTold, end_mark, end_row, end_word};
ghost use Rattle.race_answers.specs.Instrs.{instr_text};
ghost use Rattle.gdb_commands.specs.Lines.{line};

use crate::instrs::put_instr;
use crate::missing::no_instr;
use crate::pcs::{Known, known_of};
use cut_replay::has_instr;
use gdb_commands::{Put, Told, bytes_of};
use race_queries::{edges_into, edges_out_of, holds};
use replay_audit::Audited;
use rtr_types::{Cut, Instr};
use std::alloc::Global;

/// An instruction, and the edges of the log at it.
pub fn edges_told(alloc: Global, audited: &Audited, cut: &Cut, at: Instr) -> Told
    ensures { IfOk result (AreEdgesTold audited.now cut.now at) }
{
    if has_instr(audited.recording(), at) {
        edges_at(alloc, audited, cut, at)
    } else {
        no_instr(alloc, at)
    }
}

/// An instruction of the recording, the sources of the edges into it and the targets of those out of it.
fn edges_at(alloc: Global, audited: &Audited, cut: &Cut, at: Instr) -> Told
    ensures { IfOk result (AreEdges audited.now cut.now at) }
{
    let known = known_of(alloc, audited)?;
    let into = edges_into(alloc, audited, at)?;
    let out = edges_out_of(alloc, audited, at)?;
    let mut text = String::new(alloc);
    put_line(alloc, &mut text, &known, at)?;
    put_ends(alloc, &mut text, &known, cut, End::Source, into.as_slice())?;
    put_ends(alloc, &mut text, &known, cut, End::Target, out.as_slice())?;
    Ok(bytes_of(text))
}

/// Puts an instruction in a line.
pub(crate) fn put_line(alloc: Global, text: &mut String, known: &Known, at: Instr) -> Put
    ensures { OnOk result (string_bytes text.new
        ≡ string_bytes text.old ++ line (instr_text (items_in known.now.pcs) known.now.accesses.now at)) }
{
    put_instr(alloc, text, known, at)?;
    writeln!(text)
}

/// Puts the instructions at this end of edges, each in a line.
fn put_ends(
    alloc: Global,
    text: &mut String,
    known: &Known,
    cut: &Cut,
    end: End,
    list: &[Instr],
) -> Put
    ensures { OnOk result (string_bytes text.new ≡ string_bytes text.old
        ++ flat_map (end_row end cut.now (items_in known.now.pcs) known.now.accesses.now) list.now) }
{
    for at in list {
        put_end(alloc, text, known, cut, end, *at)?;
    }
    Ok(())
}

/// Puts an instruction at this end of an edge.
fn put_end(alloc: Global, text: &mut String, known: &Known, cut: &Cut, end: End, at: Instr) -> Put
    ensures { OnOk result (string_bytes text.new
        ≡ string_bytes text.old ++ end_row end cut.now (items_in known.now.pcs) known.now.accesses.now at) }
{
    text.push_str(end.word())?;
    put_instr(alloc, text, known, at)?;
    put_mark(text, end.mark(cut, at))
}

/// An end of an edge.
#[derive(Clone, Copy)]
pub(crate) enum End {
    /// The instruction from which it leads.
    Source,
    /// The instruction to which it leads.
    Target,
}

impl End {
    /// Where the instruction lies, seen from the one that was asked for.
    fn word(self) -> &'static str
        ensures { result.now ≡ end_word self }
    {
        match self {
            End::Source => "  after  ",
            End::Target => "  before ",
        }
    }

    /// What is said of a source that is still to come, and of a target that is done already.
    fn mark(self, cut: &Cut, at: Instr) -> &'static str
        ensures { result.now ≡ end_mark self cut.now at }
    {
        match self {
            End::Source => { if holds(cut, at) { "" } else { "  (not yet)" } }
            End::Target => { if holds(cut, at) { "  (already)" } else { "" } }
        }
    }
}

/// Puts what is said behind an instruction, and ends the line.
fn put_mark(text: &mut String, mark: &str) -> Put
    ensures { OnOk result (string_bytes text.new ≡ string_bytes text.old ++ line mark.now) }
{
    text.push_str(mark)?;
    writeln!(text)
}
