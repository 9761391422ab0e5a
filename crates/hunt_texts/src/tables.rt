//! The table of a range.
ghost use Rattle.std.specs.Prelude.{◌≡◌, ◌++◌, IfOk, OnOk, string_bytes};
ghost use Rattle.hunt_texts.specs.Tables.{breaks_line, head_line, mark, row_line, row_lines, table_text};

use crate::shown::put_answers;
use end_claims::Place;
use run_ranges::Row;
use std::alloc::{AllocError, Global};

/// The table of the runs from `first` to `last`: how many rows there are, each row, and where a claim is made how many
/// runs break it. The only refusal is want of memory.
pub fn table_text(
    alloc: Global,
    first: u64,
    last: u64,
    places: &[Place],
    rows: &[Row],
    broken: Option<u64>,
) -> Result<String, AllocError>
    ensures { IfOk result (λ text. string_bytes text ≡ table_text first last places.now rows.now broken) }
{
    let mut text = head_text(alloc, first, last, rows.len())?;
    put_rows(&mut text, places, rows)?;
    put_broken(&mut text, broken)?;
    Ok(text)
}

/// The line of how many rows there are.
fn head_text(alloc: Global, first: u64, last: u64, outcomes: usize) -> Result<String, AllocError>
    ensures { IfOk result (λ text. string_bytes text ≡ head_line first last outcomes) }
{
    let text = format!(in alloc; "runs {first}..{last} outcomes {outcomes}\n")?;
    Ok(text)
}

/// Puts each row.
#[tactic(auto, using(std::proofs::lemmas::List::flat_map_more, std::proofs::lemmas::List::take_more))]
fn put_rows(text: &mut String, places: &[Place], rows: &[Row]) -> Result<(), AllocError>
    ensures { OnOk result (string_bytes text.new ≡ string_bytes text.old ++ row_lines places.now rows.now) }
{
    for row in rows {
        put_row(text, places, row)?;
    }
    Ok(())
}

/// Puts a row: how many runs end so, whether one of them breaks the claim, the places with their values, and the least
/// of the runs.
fn put_row(text: &mut String, places: &[Place], row: &Row) -> Result<(), AllocError>
    ensures { OnOk result (string_bytes text.new ≡ string_bytes text.old ++ row_line places.now row.now) }
{
    let count = row.count;
    let least = row.least;
    write!(text, "{count}")?;
    text.push_str(mark(row.broken))?;
    put_answers(text, places, row.values.as_slice())?;
    write!(text, " run {least}\n")
}

/// The mark of a row of which so many runs break the claim.
fn mark(broken: u64) -> &'static str
    ensures { result.now ≡ mark broken }
{
    if broken == 0 { " :>" } else { " *>" }
}

/// Puts how many runs break the claim, where one is made.
fn put_broken(text: &mut String, broken: Option<u64>) -> Result<(), AllocError>
    ensures { OnOk result (string_bytes text.new ≡ string_bytes text.old ++ breaks_line broken) }
{
    match broken {
        Some(count) => write!(text, "breaks {count}\n"),
        None => Ok(()),
    }
}
