//! What is told of the run in which another core goes first.
ghost use Rattle.std.specs.Prelude.{◌≡◌, ◌++◌, IfOk, OnOk, slice_index, string_bytes};
ghost use Rattle.std.specs.List.{flat_map};
ghost use Rattle.race_log.specs.Validity.{Valid};
ghost use Rattle.replay_core.specs.Plans.{recorded_image};
ghost use Rattle.replay_core.specs.Play.{core_at};
ghost use Rattle.cut_replay.specs.ClosedCuts.{IsClosed};
ghost use Rattle.what_if.specs.Told.{core_row, cores_text, differing, end_in, end_text, ends_text, hex_word};
ghost use Rattle.what_if.specs.Told.{line, other_text, word_row, words_text};

use crate::others::other_way;
use image_mem::Image;
use race_log::Recording;
use replay_audit::Audited;
use rtr_types::{Cut, Items, Params};
use rv_core::{Core, Outcome, Stop};
use state_text::stop_name;
use std::alloc::{AllocError, Global};

/// That a part of a text was put.
pub type Put = Result<(), AllocError>;

/// How each core ends if at a closed cut another core goes first, and the words that then differ from those at the end
/// of the recording. It is refused for want of memory alone.
pub fn other_told(
    alloc: Global,
    audited: &Audited,
    cut: &Cut,
    first: u8,
) -> Result<Items<u8>, AllocError>
    requires { IsClosed audited.now.which audited.now.recording cut.now }
    ensures { IfOk result (λ text. text ≡ other_text audited.now cut.now first) }
{
    let other = other_way(alloc, audited, cut, first)?;
    let recording = audited.recording();
    let image = image_of(alloc, recording)?;
    let text = ends_told(alloc, &image, &other, audited.outcome(), recording.params)?;
    Ok(Items::from_vec(text.into_bytes()))
}

/// The image that a run begins with.
pub(crate) fn image_of(alloc: Global, recording: &Recording) -> Result<Image, AllocError>
    requires { Valid recording.now }
    ensures { IfOk result (λ image. image ≡ recorded_image recording.now) }
{
    let bytes = Vec::from_slice(alloc, recording.image.as_slice())?;
    let Ok(image) = Image::flat(bytes, recording.params.words) else {
        unreachable!()
    };
    Ok(image)
}

/// How the cores end by two outcomes, and the words that differ.
fn ends_told(
    alloc: Global,
    image: &Image,
    other: &Outcome,
    recorded: &Outcome,
    params: Params,
) -> Result<String, AllocError>
    ensures { IfOk result (λ text. string_bytes text ≡ ends_text image.now other.now recorded.now params) }
{
    let mut text = String::new(alloc);
    put_cores(&mut text, image, other, recorded, params.cores)?;
    put_words(
        alloc,
        &mut text,
        params.words,
        other.words.as_slice(),
        recorded.words.as_slice(),
    )?;
    Ok(text)
}

/// Puts how the cores end by two outcomes.
fn put_cores(
    text: &mut String,
    image: &Image,
    other: &Outcome,
    recorded: &Outcome,
    cores: u8,
) -> Put
    ensures { OnOk result (string_bytes text.new
        ≡ string_bytes text.old ++ cores_text image.now other.now recorded.now cores) }
{
    for core in 0..cores {
        put_core(text, image, other, recorded, core)?;
    }
    Ok(())
}

/// Puts how a core ends by two outcomes.
fn put_core(text: &mut String, image: &Image, other: &Outcome, recorded: &Outcome, core: u8) -> Put
    ensures { OnOk result (string_bytes text.new
        ≡ string_bytes text.old ++ core_row image.now other.now recorded.now core) }
{
    write!(text, "core {core}: retired ")?;
    put_end(text, image, other, core)?;
    write!(text, "; recorded ")?;
    put_end(text, image, recorded, core)?;
    writeln!(text)
}

/// Puts how a core ends by an outcome.
pub(crate) fn put_end(text: &mut String, image: &Image, outcome: &Outcome, core: u8) -> Put
    ensures { OnOk result (string_bytes text.new ≡ string_bytes text.old ++ end_text image.now outcome.now core) }
{
    let count = count_of(outcome, core);
    let name = stop_name(end_of(image, outcome, core));
    write!(text, "{count}, {name}")
}

/// How many instructions a core has retired.
fn count_of(outcome: &Outcome, core: u8) -> u32
    ensures { result ≡ (core_at outcome.now core).count }
{
    match outcome.cores.as_slice().get(core as usize) {
        Some(core) => core.count(),
        None => Core::new(0, 0).count(),
    }
}

/// How a core's program ends by an outcome.
fn end_of(image: &Image, outcome: &Outcome, core: u8) -> Stop
    ensures { result ≡ end_in image.now outcome.now core }
{
    match outcome.cores.as_slice().get(core as usize) {
        Some(core) => core.stop(image),
        None => Core::new(0, 0).stop(image),
    }
}

/// Puts the words that differ.
fn put_words(alloc: Global, text: &mut String, count: u32, words: &[u32], recorded: &[u32]) -> Put
    ensures { OnOk result (string_bytes text.new ≡ string_bytes text.old ++ words_text count words.now recorded.now) }
{
    let list = differing(alloc, count, words, recorded)?;
    if list.len() == 0 {
        return put_line(text, "no word differs");
    }
    put_rows(alloc, text, words, recorded, list.as_slice())
}

/// Puts words, and ends the line.
fn put_line(text: &mut String, words: &str) -> Put
    ensures { OnOk result (string_bytes text.new ≡ string_bytes text.old ++ line words.now) }
{
    text.push_str(words)?;
    writeln!(text)
}

/// Of so many words those that differ, by their indexes.
fn differing(
    alloc: Global,
    count: u32,
    words: &[u32],
    recorded: &[u32],
) -> Result<Items<u32>, AllocError>
    ensures { IfOk result (λ list. list ≡ differing count words.now recorded.now) }
{
    let mut list = Items::new(alloc);
    for word in 0..count {
        if word_in(words, word) != word_in(recorded, word) {
            list.push(word)?;
        }
    }
    Ok(list)
}

/// Puts words, each in a line.
fn put_rows(alloc: Global, text: &mut String, words: &[u32], recorded: &[u32], list: &[u32]) -> Put
    ensures { OnOk result (string_bytes text.new
        ≡ string_bytes text.old ++ flat_map (word_row words.now recorded.now) list.now) }
{
    for word in list {
        put_row(alloc, text, words, recorded, *word)?;
    }
    Ok(())
}

/// Puts a word by its address, with its two values.
fn put_row(alloc: Global, text: &mut String, words: &[u32], recorded: &[u32], word: u32) -> Put
    ensures { OnOk result (string_bytes text.new
        ≡ string_bytes text.old ++ word_row words.now recorded.now word) }
{
    text.push_str("word ")?;
    put_word(alloc, text, word.wrapping_mul(4))?;
    text.push_str(": ")?;
    put_word(alloc, text, word_in(words, word))?;
    text.push_str(", recorded ")?;
    put_word(alloc, text, word_in(recorded, word))?;
    writeln!(text)
}

/// The word with an index; 0 where there is none.
fn word_in(words: &[u32], word: u32) -> u32
    ensures { result ≡ slice_index words.now word }
{
    words.get(word as usize).copied().unwrap_or(0)
}

/// Puts a word as eight digits.
fn put_word(alloc: Global, text: &mut String, word: u32) -> Put
    ensures { OnOk result (string_bytes text.new ≡ string_bytes text.old ++ hex_word word) }
{
    let digits = hex::encode(alloc, &word.to_be_bytes())?;
    text.push_str(&digits)
}
