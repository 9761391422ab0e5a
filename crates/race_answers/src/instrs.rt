//! How an instruction is told.
ghost use Rattle.std.specs.Prelude.{◌≡◌, ◌++◌, OnOk, string_bytes};
ghost use Rattle.roomy_lists.specs.Lists.{items_in};
ghost use Rattle.race_answers.specs.Instrs.{access_text, hex_word, instr_text, kind_text, left_text};
ghost use Rattle.race_answers.specs.Instrs.{place_text, row_text, touch_text};

use crate::pcs::{Known, pc_in};
use gdb_commands::Put;
use race_queries::access_at;
use rtr_types::{Access, Instr, Kind};
use std::alloc::Global;

/// Puts a word as eight digits.
pub fn put_word(alloc: Global, text: &mut String, word: u32) -> Put
    ensures { OnOk result (string_bytes text.new ≡ string_bytes text.old ++ hex_word word) }
{
    let digits = hex::encode(alloc, &word.to_be_bytes())?;
    text.push_str(&digits)
}

/// The word for what an access does, between spaces.
fn kind_text(kind: Kind) -> &'static str
    ensures { result.now ≡ kind_text kind }
{
    match kind {
        Kind::Load => " load ",
        Kind::Store => " store ",
        Kind::Amo => " amo ",
    }
}

/// Puts what an access left, where it may have changed its word.
fn put_left(alloc: Global, text: &mut String, access: Access) -> Put
    ensures { OnOk result (string_bytes text.new ≡ string_bytes text.old ++ left_text access) }
{
    if access.kind.is_write() {
        text.push_str(" -> ")?;
        put_word(alloc, text, access.after)?;
    }
    Ok(())
}

/// Puts an access: what it does, its word's address, what it found and what it left.
fn put_access(alloc: Global, text: &mut String, access: Access) -> Put
    ensures { OnOk result (string_bytes text.new ≡ string_bytes text.old ++ access_text access) }
{
    text.push_str(kind_text(access.kind))?;
    put_word(alloc, text, access.word.wrapping_mul(4))?;
    text.push_str(" ")?;
    put_word(alloc, text, access.before)?;
    put_left(alloc, text, access)
}

/// Puts an instruction, and its pc.
fn put_place(alloc: Global, text: &mut String, known: &Known, at: Instr) -> Put
    ensures { OnOk result (string_bytes text.new ≡ string_bytes text.old ++ place_text (items_in known.now.pcs) at) }
{
    let core = at.core;
    let count = at.count;
    write!(text, "{core}:{count} pc ")?;
    put_word(alloc, text, pc_in(&known.pcs, at))
}

/// Puts an access, with its instruction.
pub(crate) fn put_row(alloc: Global, text: &mut String, known: &Known, access: Access) -> Put
    ensures { OnOk result (string_bytes text.new ≡ string_bytes text.old ++ row_text (items_in known.now.pcs) access) }
{
    put_place(alloc, text, known, access.at)?;
    put_access(alloc, text, access)
}

/// Puts an instruction, with its access if it has one.
#[tactic(auto, unfolding(crate::specs::Instrs::instr_text))]
pub(crate) fn put_instr(alloc: Global, text: &mut String, known: &Known, at: Instr) -> Put
    ensures { OnOk result (string_bytes text.new
        ≡ string_bytes text.old ++ instr_text (items_in known.now.pcs) known.now.accesses.now at) }
{
    put_touch(alloc, text, known, at, access_at(known.accesses, at))
}

/// Puts an instruction, with this access, if it has one.
pub(crate) fn put_touch(
    alloc: Global,
    text: &mut String,
    known: &Known,
    at: Instr,
    access: Option<Access>,
) -> Put
    ensures { OnOk result (string_bytes text.new
        ≡ string_bytes text.old ++ touch_text (items_in known.now.pcs) at access) }
{
    put_place(alloc, text, known, at)?;
    match access {
        Some(access) => put_access(alloc, text, access),
        None => Ok(()),
    }
}
