//! Runs that are shown.
ghost use Rattle.std.specs.Prelude.{◌≡◌, ◌++◌, IfOk, OnOk, string_bytes};
ghost use Rattle.hunt_texts.specs.Shown.{answers, ends_line, none_text, run_line, shown_text, turns_line, words_line};
ghost use Rattle.hunt_texts.specs.Seen.{shown_seen, turns_seen};

use end_claims::{Place, put_answer};
use hunt_words::put_line;
use std::alloc::{AllocError, Global};
use tool_words::RunWords;
use turn_lists::{Turn, spelled_turns};

/// A run that is shown: its turns, where these are told, the values of places at its end, and how `rtr` records it.
#[derive(Clone, Copy)]
pub struct Shown<'a> {
    /// Its turns.
    pub turns: Option<&'a [Turn]>,
    /// The places that are told.
    pub places: &'a [Place],
    /// Their values at the end, in their order.
    pub values: &'a [u32],
    /// Whether the cores have store buffers.
    pub tso: bool,
    /// The run as `rtr` records it.
    pub run: &'a RunWords,
}

/// That no run of a range, whose first and last these are, breaks the claim. The only refusal is want of memory.
pub fn none_text(alloc: Global, first: u64, last: u64) -> Result<String, AllocError>
    ensures { IfOk result (λ text. string_bytes text ≡ none_text first last) }
{
    let text = format!(in alloc; "none {first}..{last}\n")?;
    Ok(text)
}

/// The line that names a run by its number. The only refusal is want of memory.
pub fn run_text(alloc: Global, number: u64) -> Result<String, AllocError>
    ensures { IfOk result (λ text. string_bytes text ≡ run_line number) }
{
    let text = format!(in alloc; "run {number}\n")?;
    Ok(text)
}

/// The line by which `rtr` records a run. The only refusal is want of memory.
pub fn words_text(alloc: Global, tso: bool, run: &RunWords) -> Result<String, AllocError>
    ensures { IfOk result (λ text. string_bytes text ≡ words_line tso run.now) }
{
    let mut text = String::new(alloc);
    put_words(alloc, &mut text, tso, run)?;
    Ok(text)
}

/// Puts a run that is shown: its turns, the values of places at its end, and the line by which `rtr` records it. The
/// only refusal is want of memory.
pub fn put_shown(alloc: Global, text: &mut String, shown: Shown<'_>) -> Result<(), AllocError>
    ensures { OnOk result (string_bytes text.new ≡ string_bytes text.old ++ shown_text (shown_seen shown.entry)) }
{
    put_turns(alloc, text, shown.turns)?;
    put_ends(text, shown.places, shown.values)?;
    put_words(alloc, text, shown.tso, shown.run)
}

/// Puts the line of turns, where they are told.
fn put_turns(alloc: Global, text: &mut String, turns: Option<&[Turn]>) -> Result<(), AllocError>
    ensures { OnOk result (string_bytes text.new ≡ string_bytes text.old ++ turns_line (turns_seen turns.entry)) }
{
    match turns {
        Some(turns) => {
            let spelled = spelled_turns(alloc, turns)?;
            text.push_str("turns ")?;
            text.push_str(spelled.as_str())?;
            text.push_str("\n")
        }
        None => Ok(()),
    }
}

/// Puts the line of the places' values.
fn put_ends(text: &mut String, places: &[Place], values: &[u32]) -> Result<(), AllocError>
    ensures { OnOk result (string_bytes text.new ≡ string_bytes text.old ++ ends_line places.now values.now) }
{
    text.push_str("ends")?;
    put_answers(text, places, values)?;
    text.push_str("\n")
}

/// Puts the places with their values, each after a space.
pub(crate) fn put_answers(
    text: &mut String,
    places: &[Place],
    values: &[u32],
) -> Result<(), AllocError>
    ensures { OnOk result (string_bytes text.new ≡ string_bytes text.old ++ answers places.now values.now) }
{
    let mut places = places;
    let mut values = values;
    while let (Some((place, more)), Some((value, others))) = (
        places.split_first(),
        values.split_first(),
    ) {
        text.push_str(" ")?;
        put_answer(text, *place, *value)?;
        places = more;
        values = others;
    }
    Ok(())
}

/// Puts the line by which `rtr` records the run.
fn put_words(alloc: Global, text: &mut String, tso: bool, run: &RunWords) -> Result<(), AllocError>
    ensures { OnOk result (string_bytes text.new ≡ string_bytes text.old ++ words_line tso run.now) }
{
    put_line(alloc, text, tso, run)?;
    text.push_str("\n")
}
