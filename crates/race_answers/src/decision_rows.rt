//! What is told of all edges of the log.
ghost use Rattle.std.specs.Prelude.{◌≡◌, ◌++◌, IfOk, OnOk, string_bytes};
ghost use Rattle.std.specs.List.{flat_map};
ghost use Rattle.roomy_lists.specs.Lists.{items_in};
ghost use Rattle.race_queries.specs.Ends.{log_ends};
ghost use Rattle.race_answers.specs.Asking.{AreDecisionRows, AreDecisionsTold, decision_row, second_text, times_text};

use crate::decisions::{Decision, decisions_of};
use crate::instrs::put_touch;
use crate::pcs::{Known, known_of};
use gdb_commands::{Put, Told, bytes_of, line};
use race_queries::{Ends, log_ends};
use replay_audit::Audited;
use std::alloc::Global;

/// The edges of the log, by the instructions of the program between which they lead.
pub fn decisions_told(alloc: Global, audited: &Audited) -> Told
    ensures { IfOk result (AreDecisionsTold audited.now) }
{
    let all = log_ends(alloc, audited)?;
    if all.len() == 0 {
        line(alloc, "no edge")
    } else {
        rows_told(alloc, audited, all.as_slice())
    }
}

/// All edges of the log.
fn rows_told(alloc: Global, audited: &Audited, all: &[Ends]) -> Told
    requires { all.now ≡ log_ends audited.now }
    ensures { IfOk result (AreDecisionRows audited.now) }
{
    let known = known_of(alloc, audited)?;
    let list = decisions_of(alloc, &known.pcs, all)?;
    let mut text = String::new(alloc);
    put_rows(alloc, &mut text, &known, list.as_slice())?;
    Ok(bytes_of(text))
}

/// Puts decisions, each in a line.
fn put_rows(alloc: Global, text: &mut String, known: &Known, list: &[Decision]) -> Put
    ensures { OnOk result (string_bytes text.new
        ≡ string_bytes text.old ++ flat_map (decision_row (items_in known.now.pcs)) list.now) }
{
    for decision in list {
        put_row(alloc, text, known, *decision)?;
    }
    Ok(())
}

/// Puts how many edges lead this way, how many the other, and the last of them.
fn put_row(alloc: Global, text: &mut String, known: &Known, decision: Decision) -> Put
    ensures { OnOk result (string_bytes text.new
        ≡ string_bytes text.old ++ decision_row (items_in known.now.pcs) decision) }
{
    let last = decision.last;
    put_times(text, decision)?;
    put_touch(alloc, text, known, last.edge.from, last.from)?;
    put_second(alloc, text, known, last)
}

/// Puts how many edges lead this way, and how many the other.
fn put_times(text: &mut String, decision: Decision) -> Put
    ensures { OnOk result (string_bytes text.new ≡ string_bytes text.old ++ times_text decision) }
{
    let times = decision.times;
    let turned = decision.turned;
    write!(text, "{times} this way, ")?;
    write!(text, "{turned} the other: ")
}

/// Puts before which instruction an edge's first one came, and ends the line.
fn put_second(alloc: Global, text: &mut String, known: &Known, ends: Ends) -> Put
    ensures { OnOk result (string_bytes text.new
        ≡ string_bytes text.old ++ second_text (items_in known.now.pcs) ends) }
{
    text.push_str(" before ")?;
    put_touch(alloc, text, known, ends.edge.to, ends.to)?;
    writeln!(text)
}
