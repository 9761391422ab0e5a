//! What is told of a word.
ghost use Rattle.std.specs.Prelude.{◌≡◌, ◌++◌, IfOk, OnOk, string_bytes};
ghost use Rattle.std.specs.List.{flat_map};
ghost use Rattle.roomy_lists.specs.Lists.{items_in};
ghost use Rattle.race_answers.specs.Asking.{AreReadersTold};
ghost use Rattle.race_answers.specs.Asking.{AreRowsTold, IsHistory, IsHistoryTold, IsRowTold, IsWriterTold};
ghost use Rattle.race_answers.specs.Asking.{history_row, rows_text};
ghost use Rattle.race_answers.specs.Instrs.{row_text};
ghost use Rattle.gdb_commands.specs.Lines.{line};

use crate::filters::history_by;
use crate::instrs::put_row;
use crate::pcs::{Known, known_of};
use gdb_commands::{Filter, Put, Told, bytes_of, line};
use race_queries::{holds, last_write, reads_since};
use replay_audit::Audited;
use rtr_types::{Access, Cut};
use std::alloc::Global;

/// The last write of a word in the cut.
pub fn writer_told(alloc: Global, audited: &Audited, cut: &Cut, word: u32) -> Told
    ensures { IfOk result (IsWriterTold audited.now cut.now word) }
{
    match last_write(audited, cut, word) {
        Some(access) => row_told(alloc, audited, access),
        None => line(alloc, "no write: the opening value"),
    }
}

/// One access.
fn row_told(alloc: Global, audited: &Audited, access: Access) -> Told
    ensures { IfOk result (IsRowTold audited.now access) }
{
    let known = known_of(alloc, audited)?;
    let mut text = String::new(alloc);
    put_line(alloc, &mut text, &known, access)?;
    Ok(bytes_of(text))
}

/// Puts an access in a line.
pub(crate) fn put_line(alloc: Global, text: &mut String, known: &Known, access: Access) -> Put
    ensures { OnOk result (string_bytes text.new
        ≡ string_bytes text.old ++ line (row_text (items_in known.now.pcs) access)) }
{
    put_row(alloc, text, known, access)?;
    writeln!(text)
}

/// The loads of a word in the cut since its last write in the cut.
pub fn readers_told(alloc: Global, audited: &Audited, cut: &Cut, word: u32) -> Told
    ensures { IfOk result (AreReadersTold audited.now cut.now word) }
{
    let list = reads_since(alloc, audited, cut, word)?;
    if list.len() == 0 {
        line(alloc, "no read since the last write")
    } else {
        rows_told(alloc, audited, list.as_slice())
    }
}

/// Several accesses.
fn rows_told(alloc: Global, audited: &Audited, list: &[Access]) -> Told
    ensures { IfOk result (AreRowsTold audited.now list.now) }
{
    let known = known_of(alloc, audited)?;
    let mut text = String::new(alloc);
    put_rows(alloc, &mut text, &known, list)?;
    Ok(bytes_of(text))
}

/// Puts accesses, each in a line.
fn put_rows(alloc: Global, text: &mut String, known: &Known, list: &[Access]) -> Put
    ensures { OnOk result (string_bytes text.new
        ≡ string_bytes text.old ++ rows_text (items_in known.now.pcs) list.now) }
{
    for access in list {
        put_line(alloc, text, known, *access)?;
    }
    Ok(())
}

/// The accesses to a word that are asked for.
pub fn history_told(alloc: Global, audited: &Audited, cut: &Cut, word: u32, filter: Filter) -> Told
    ensures { IfOk result (IsHistoryTold audited.now cut.now word filter) }
{
    let list = history_by(alloc, audited, word, filter)?;
    if list.len() == 0 {
        line(alloc, "no access")
    } else {
        marked_told(alloc, audited, cut, list.as_slice())
    }
}

/// Several accesses, those marked that aren't in the cut.
fn marked_told(alloc: Global, audited: &Audited, cut: &Cut, list: &[Access]) -> Told
    ensures { IfOk result (IsHistory audited.now cut.now list.now) }
{
    let known = known_of(alloc, audited)?;
    let mut text = String::new(alloc);
    put_marked(alloc, &mut text, &known, cut, list)?;
    Ok(bytes_of(text))
}

/// Puts accesses, each in a line, those marked that aren't in the cut.
fn put_marked(alloc: Global, text: &mut String, known: &Known, cut: &Cut, list: &[Access]) -> Put
    ensures { OnOk result (string_bytes text.new
        ≡ string_bytes text.old ++ flat_map (history_row cut.now (items_in known.now.pcs)) list.now) }
{
    for access in list {
        put_marked_row(alloc, text, known, cut, *access)?;
    }
    Ok(())
}

/// Puts an access in a line, marked where it isn't in the cut.
fn put_marked_row(alloc: Global, text: &mut String, known: &Known, cut: &Cut, access: Access) -> Put
    ensures { OnOk result (string_bytes text.new
        ≡ string_bytes text.old ++ history_row cut.now (items_in known.now.pcs) access) }
{
    text.push_str(if holds(cut, access.at) { "  " } else { "+ " })?;
    put_line(alloc, text, known, access)
}
