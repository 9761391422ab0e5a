//! What the words of the command line ask for.
ghost use Rattle.std.specs.Prelude.{◌≡◌, ◌∷◌, IfOk, codes, map, string_bytes};
ghost use Rattle.gdb_cli.specs.Words.{file_name, moment_in, session_log};

use rtr_types::{Instr, Which};
use std::alloc::{AllocError, Global};
use tool_words::{Command, meaning};

/// A moment of a recorded run, as the words of `rtr at` name it.
#[derive(Clone, Copy)]
pub struct Moment {
    /// The log by which the recording is replayed.
    pub which: Which,
    /// The instruction.
    pub at: Instr,
    /// Whether the moment is the last one before the instruction, and not the first one that has it.
    pub latest: bool,
}

/// The moment whose core file the words ask for, or `None`. The words are those of `rtr at` without `--loads`; every
/// other list of words asks for nothing. It is refused for want of memory alone.
pub fn moment_in(alloc: Global, words: &[String]) -> Result<Option<Moment>, AllocError>
    ensures { IfOk result (λ moment. moment ≡ moment_in (map string_bytes words.now)) }
{
    Ok(match meaning(alloc, words)? {
        Some(
            Command::At {
                which,
                at,
                latest,
                loads: false,
            },
        ) => Some(Moment { which, at, latest }),
        Some(_) | None => None,
    })
}

/// The log by which a session replays the recording of a file, or `None` where the words ask for no session. The first
/// word is the file's name, which isn't `at`, and the others are options as `rtr replay` takes them, without
/// `--threads` and `--loads`. It is refused for want of memory alone.
pub fn session_log(alloc: Global, words: &[String]) -> Result<Option<Which>, AllocError>
    ensures { IfOk result (λ which. which ≡ session_log (map string_bytes words.now)) }
{
    let Some((file, options)) = words.split_first() else {
        return Ok(None);
    };
    if file.as_str() == "at" {
        return Ok(None);
    }
    let replayed = replay_words(alloc, options)?;
    Ok(match meaning(alloc, replayed.as_slice())? {
        Some(
            Command::Replay {
                which,
                threads: None,
                loads: false,
            },
        ) => Some(which),
        Some(_) | None => None,
    })
}

/// The words of `rtr replay` with these options.
fn replay_words(alloc: Global, options: &[String]) -> Result<Vec<String>, AllocError>
    ensures { IfOk result (λ words. map string_bytes words.items ≡ codes "replay" ∷ map string_bytes options.now) }
{
    let mut words = Vec::new(alloc);
    words.push(String::from_str(alloc, "replay")?)?;
    for option in options {
        words.push(option.clone()?)?;
    }
    Ok(words)
}

/// The words as `rtr` reads them: a file's name stands for `replay`.
pub(crate) fn read_as(alloc: Global, words: &[String]) -> Result<Vec<String>, AllocError> {
    match words.split_first() {
        Some((first, options)) if first.as_str() != "at" => replay_words(alloc, options),
        _ => words.to_vec(alloc),
    }
}

/// The name of the recording's file that a session is held on: the first word.
pub fn file_name(words: &[String]) -> &str
    ensures { result.now ≡ file_name (map string_bytes words.now) }
{
    match words.first() {
        Some(word) => word.as_str(),
        None => "",
    }
}
