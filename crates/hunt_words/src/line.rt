//! The line by which `rtr` records a run.
ghost use Rattle.std.specs.Prelude.{◌≡◌, ◌++◌, OnOk, codes, string_bytes};
ghost use Rattle.std.specs.List.{flat_map};
ghost use Rattle.hunt_words.specs.Lines.{LineMeansTheRun, choice_words, command_word, flag_words, line};
ghost use Rattle.hunt_words.specs.Lines.{number_words, option_words, spaced};

use std::alloc::{AllocError, Global};
use tool_words::{CORES_DEFAULT, LIMIT_DEFAULT, RunWords, WORDS_DEFAULT};

/// Puts the line by which `rtr` records the run, on cores with store buffers or without: `rtr record` or `rtr
/// tsorecord` and each option that isn't at its default, without a line feed. The only refusal is want of memory.
pub fn put_line(
    alloc: Global,
    text: &mut String,
    tso: bool,
    run: &RunWords,
) -> Result<(), AllocError>
    ensures { OnOk result (string_bytes text.new ≡ string_bytes text.old ++ line tso run.now) }
{
    put_command(text, tso)?;
    put_options(alloc, text, run)
}

/// Puts `rtr` and its command.
fn put_command(text: &mut String, tso: bool) -> Result<(), AllocError>
    ensures { OnOk result (string_bytes text.new ≡ string_bytes text.old
        ++ (codes "rtr" ++ spaced (command_word tso))) }
{
    text.push_str(if tso { "rtr tsorecord" } else { "rtr record" })
}

/// Puts what follows the command.
fn put_options(alloc: Global, text: &mut String, run: &RunWords) -> Result<(), AllocError>
    ensures { OnOk result (string_bytes text.new ≡ string_bytes text.old ++ flat_map spaced (option_words run.now)) }
{
    put_flag(text, run.elf)?;
    put_number(
        text,
        "--cores",
        run.params.cores as u64,
        CORES_DEFAULT as u64,
    )?;
    put_number(
        text,
        "--limit",
        run.params.limit as u64,
        LIMIT_DEFAULT as u64,
    )?;
    put_number(
        text,
        "--words",
        run.params.words as u64,
        WORDS_DEFAULT as u64,
    )?;
    put_number(text, "--seed", run.seed, 0)?;
    put_choices(alloc, text, run.choices.as_slice())
}

/// Puts `--elf`, where it is on.
fn put_flag(text: &mut String, elf: bool) -> Result<(), AllocError>
    ensures { OnOk result (string_bytes text.new ≡ string_bytes text.old
        ++ flat_map spaced (flag_words (codes "--elf") elf)) }
{
    if elf { text.push_str(" --elf") } else { Ok(()) }
}

/// Puts an option and its number, where that isn't the default.
fn put_number(text: &mut String, name: &str, value: u64, default: u64) -> Result<(), AllocError>
    ensures { OnOk result (string_bytes text.new ≡ string_bytes text.old
        ++ flat_map spaced (number_words name.now value default)) }
{
    if value == default {
        return Ok(());
    }
    write!(text, " {name} {value}")
}

/// Puts the choice bytes, where there is one.
fn put_choices(alloc: Global, text: &mut String, choices: &[u8]) -> Result<(), AllocError>
    ensures { OnOk result (string_bytes text.new ≡ string_bytes text.old
        ++ flat_map spaced (choice_words choices.now)) }
{
    if choices.is_empty() {
        return Ok(());
    }
    let digits = hex::encode(alloc, choices)?;
    text.push_str(" --choices ")?;
    text.push_str(digits.as_str())
}

/// What a line means: `rtr`'s own reader takes its words for the command that records exactly this run.
pub fn lines_mean_their_runs()
    ensures { LineMeansTheRun }
{}
