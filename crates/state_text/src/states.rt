//! The text of the state that a run or a replay left.
ghost use Rattle.std.specs.Prelude.{◌≡◌, ◌+◌, ◌<◌, ◌≤◌, ◌++◌, OnOk, IfOk, IsTrue, All, length, string_bytes};
ghost use Rattle.std.specs.List.{flat_map, enumerate_from};
ghost use Rattle.state_text.specs.States.{stop_name, stop_line, register_line, register_lines, core_lines, memory_line};
ghost use Rattle.state_text.specs.States.{load_line, load_lines, state_lines, IsOutcomeOf, LoadsWithin};

use crate::hex_word::HexWord;
use image_mem::Image;
use rtr_types::{Items, WORDS_MAX};
use rv_core::{Core, LoadNote, Outcome, REGISTERS, Stop};
use std::alloc::{AllocError, Global};

/// How many words are looked at in one step where the image doesn't reach.
const STRETCH: usize = 64;

/// The state that a run or a replay left, as text: for each core by number how it stopped and its
/// registers that aren't 0, then each memory word that doesn't have its opening value, by address,
/// and where they are asked for the loads of each core in program order. Addresses are of bytes, and
/// addresses and values are eight hexadecimal digits. The image is the one that the run began with.
/// The only refusal is want of memory.
pub fn state_text(
    alloc: Global,
    outcome: &Outcome,
    image: &Image,
    loads: bool,
) -> Result<Vec<u8>, AllocError>
    requires { IsOutcomeOf image.now outcome.now }
    ensures { IfOk result (λ text. text.items ≡ state_lines outcome.now image.now loads) }
{
    let mut text = String::new(alloc);
    put_state(&mut text, outcome, image, loads)?;
    Ok(text.into_bytes())
}

// Puts the lines of a state.
pub(crate) fn put_state(
    text: &mut String,
    outcome: &Outcome,
    image: &Image,
    loads: bool,
) -> Result<(), AllocError>
    requires { IsOutcomeOf image.now outcome.now }
    ensures { OnOk result (string_bytes text.new ≡ string_bytes text.old
        ++ state_lines outcome.now image.now loads) }
{
    put_cores(text, outcome.cores.as_slice(), image)?;
    put_memory(text, outcome.words.as_slice(), image)?;
    if loads {
        put_loads(text, outcome.loads.as_slice())?;
    }
    Ok(())
}

// Puts the lines of each core.
fn put_cores(text: &mut String, cores: &[Core], image: &Image) -> Result<(), AllocError>
    ensures { OnOk result (string_bytes text.new ≡ string_bytes text.old
        ++ flat_map (core_lines image.now) (enumerate_from 0 cores.now)) }
{
    for (number, core) in cores.iter().enumerate() {
        put_core(text, number, core, image)?;
    }
    Ok(())
}

// Puts the lines of a core.
fn put_core(text: &mut String, number: usize, core: &Core, image: &Image) -> Result<(), AllocError>
    ensures { OnOk result (string_bytes text.new ≡ string_bytes text.old ++ core_lines image.now (number, core.now)) }
{
    put_stop(text, number, core, core.stop(image))?;
    put_registers(text, number, core)
}

// Puts the line on how a core stopped.
fn put_stop(text: &mut String, number: usize, core: &Core, stop: Stop) -> Result<(), AllocError>
    ensures { OnOk result (string_bytes text.new ≡ string_bytes text.old ++ stop_line number stop core.now) }
{
    let stop = stop_name(stop);
    let count = core.count();
    let pc = HexWord(core.pc());
    writeln!(text, "core {number} {stop} retired {count} pc {pc}")
}

/// The word for a stop.
pub fn stop_name(stop: Stop) -> &'static str
    ensures { result.now ≡ stop_name stop }
{
    match stop {
        Stop::Exit => "exit",
        Stop::Break => "break",
        Stop::Limit => "limit",
        Stop::Fetch => "fetch",
        Stop::Illegal => "illegal",
        Stop::Jump => "jump",
        Stop::Align => "align",
        Stop::Address => "address",
        Stop::Total => "total",
    }
}

// Puts the registers of a core that aren't 0.
fn put_registers(text: &mut String, number: usize, core: &Core) -> Result<(), AllocError>
    ensures { OnOk result (string_bytes text.new ≡ string_bytes text.old ++ register_lines number core.now) }
{
    for k in 1..REGISTERS as u8 {
        put_register(text, number, k, core.reg(k))?;
    }
    Ok(())
}

// Puts the line of a register, where it isn't 0.
fn put_register(text: &mut String, number: usize, k: u8, value: u32) -> Result<(), AllocError>
    ensures { OnOk result (string_bytes text.new ≡ string_bytes text.old ++ register_line number k value) }
{
    if value == 0 {
        return Ok(());
    }
    let value = HexWord(value);
    writeln!(text, "core {number} x{k} {value}")
}

// Puts the words that don't have their opening values.
fn put_memory(text: &mut String, words: &[u32], image: &Image) -> Result<(), AllocError>
    requires { length words.now ≤ WORDS_MAX }
    ensures { OnOk result (string_bytes text.new ≡ string_bytes text.old
        ++ flat_map (memory_line image.now) (enumerate_from 0 words.now)) }
{
    let stretches = words.len().div_ceil(STRETCH);
    for stretch in 0..stretches {
        let start = stretch * STRETCH;
        let end = (start + STRETCH).min(words.len());
        put_stretch(text, start, &words[start..end], image)?;
    }
    Ok(())
}

// Puts the words of a stretch that begins at `first` and don't have their opening values. Past the image these are 0:
// so a stretch that nobody wrote is looked at as a whole.
fn put_stretch(
    text: &mut String,
    first: usize,
    words: &[u32],
    image: &Image,
) -> Result<(), AllocError>
    requires { first + length words.now ≤ WORDS_MAX }
    ensures { OnOk result (string_bytes text.new ≡ string_bytes text.old
        ++ flat_map (memory_line image.now) (enumerate_from first words.now)) }
{
    if 4 * first >= image.bytes().len() && are_zero(words) {
        return Ok(());
    }
    put_words(text, first, words, image)
}

// Whether each word is 0. There is no way out of the loop, so that several words are looked at in one step.
fn are_zero(words: &[u32]) -> bool
    ensures { IsTrue result → All (λ word. word ≡ 0) words.now }
{
    let mut most: u32 = 0;
    for word in words {
        most = most.max(*word);
    }
    most == 0
}

// Puts the words from `first` on that don't have their opening values, one by one.
fn put_words(
    text: &mut String,
    first: usize,
    words: &[u32],
    image: &Image,
) -> Result<(), AllocError>
    requires { first + length words.now ≤ WORDS_MAX }
    ensures { OnOk result (string_bytes text.new ≡ string_bytes text.old
        ++ flat_map (memory_line image.now) (enumerate_from first words.now)) }
{
    for (k, value) in words.iter().enumerate() {
        put_word(text, (first + k) as u32, *value, image)?;
    }
    Ok(())
}

// Puts the line of a memory word, where it doesn't have its opening value.
fn put_word(text: &mut String, word: u32, value: u32, image: &Image) -> Result<(), AllocError>
    requires { word < WORDS_MAX }
    ensures { OnOk result (string_bytes text.new ≡ string_bytes text.old ++ memory_line image.now (word, value)) }
{
    if value == image.word(word) {
        return Ok(());
    }
    let address = HexWord(4 * word);
    let value = HexWord(value);
    writeln!(text, "mem {address} {value}")
}

// Puts the loads of each core.
fn put_loads(text: &mut String, loads: &[Items<LoadNote>]) -> Result<(), AllocError>
    requires { All (LoadsWithin WORDS_MAX) loads.now }
    ensures { OnOk result (string_bytes text.new ≡ string_bytes text.old
        ++ flat_map load_lines (enumerate_from 0 loads.now)) }
{
    for (number, notes) in loads.iter().enumerate() {
        put_loads_of(text, number, notes.as_slice())?;
    }
    Ok(())
}

// Puts the loads of one core.
fn put_loads_of(text: &mut String, number: usize, notes: &[LoadNote]) -> Result<(), AllocError>
    requires { LoadsWithin WORDS_MAX notes.now }
    ensures { OnOk result (string_bytes text.new ≡ string_bytes text.old ++ load_lines (number, notes.now)) }
{
    for note in notes {
        put_load(text, number, note)?;
    }
    Ok(())
}

// Puts the line of a load.
fn put_load(text: &mut String, number: usize, note: &LoadNote) -> Result<(), AllocError>
    requires { note.now.word < WORDS_MAX }
    ensures { OnOk result (string_bytes text.new ≡ string_bytes text.old ++ load_line number note.now) }
{
    let count = note.count;
    let address = HexWord(4 * note.word);
    let value = HexWord(note.value);
    writeln!(text, "load {number} {count} {address} {value}")
}
