//! What is told of how often cores came to a pc.
ghost use Rattle.std.specs.Prelude.{◌≡◌, ◌++◌, IfOk, OnOk, string_bytes};
ghost use Rattle.roomy_lists.specs.Lists.{items_in};
ghost use Rattle.race_answers.specs.Traces.{AreCallsTold, calls_row, calls_rows, next_text, visits, visits_text};

use crate::pcs::{Known, known_of, pc_in};
use crate::traces::total_in;
use gdb_commands::{Put, Told, bytes_of, line};
use replay_audit::Audited;
use rtr_types::{Instr, Items};
use std::alloc::{AllocError, Global};

/// How often each core came to this pc, and the first and the last time.
pub fn calls_told(alloc: Global, audited: &Audited, pc: u32) -> Told
    ensures { IfOk result (AreCallsTold audited.now pc) }
{
    let known = known_of(alloc, audited)?;
    let recording = audited.recording();
    let cores = recording.params.cores;
    let mut text = String::new(alloc);
    put_rows(
        alloc,
        &mut text,
        &known,
        pc,
        recording.totals.as_slice(),
        cores,
    )?;
    let rows = bytes_of(text);
    if rows.len() == 0 {
        line(alloc, "no instruction has this pc")
    } else {
        Ok(rows)
    }
}

/// Puts how often each core came to this pc.
fn put_rows(
    alloc: Global,
    text: &mut String,
    known: &Known,
    pc: u32,
    totals: &[u32],
    cores: u8,
) -> Put
    ensures { OnOk result (string_bytes text.new
        ≡ string_bytes text.old ++ calls_rows (items_in known.now.pcs) pc totals.now cores) }
{
    for core in 0..cores {
        put_row(alloc, text, known, pc, totals, core)?;
    }
    Ok(())
}

/// Puts how often a core came to this pc, if it ever did.
fn put_row(
    alloc: Global,
    text: &mut String,
    known: &Known,
    pc: u32,
    totals: &[u32],
    core: u8,
) -> Put
    ensures { OnOk result (string_bytes text.new
        ≡ string_bytes text.old ++ calls_row (items_in known.now.pcs) pc totals.now core) }
{
    let list = visits(alloc, known, pc, core, total_in(totals, core))?;
    put_visits(text, core, list.as_slice())
}

/// How many instructions a core has retired each time that it comes to this pc.
fn visits(
    alloc: Global,
    known: &Known,
    pc: u32,
    core: u8,
    total: u32,
) -> Result<Items<u32>, AllocError>
    ensures { IfOk result (λ list. list ≡ visits (items_in known.now.pcs) pc core total) }
{
    let mut list = Items::new(alloc);
    for k in 0..total {
        let count = k + 1;
        if pc_in(&known.pcs, Instr { core, count }) == pc {
            list.push(k)?;
        }
    }
    Ok(list)
}

/// Puts how often a core came somewhere, and the first and the last time, if there is one.
fn put_visits(text: &mut String, core: u8, list: &[u32]) -> Put
    ensures { OnOk result (string_bytes text.new ≡ string_bytes text.old ++ visits_text core list.now) }
{
    let times = list.len();
    if times == 0 {
        return Ok(());
    }
    write!(text, "core {core}: {times} in all, first ")?;
    put_next(text, core, list[0])?;
    text.push_str(", last ")?;
    put_next(text, core, list[times - 1])?;
    writeln!(text)
}

/// Puts the instruction of a core behind so many.
fn put_next(text: &mut String, core: u8, k: u32) -> Put
    ensures { OnOk result (string_bytes text.new ≡ string_bytes text.old ++ next_text core k) }
{
    let count = k as u64 + 1;
    write!(text, "{core}:{count}")
}
