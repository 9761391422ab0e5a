//! How the program is used, and what a person is told whose words ask for nothing.
use crate::words::{moment_in, read_as, session_log};
use command_line::{Question, fault_line};
use std::alloc::{AllocError, Global};
use tool_words::fault;

/// How the program is used.
const USES: &str =
    "rtr_gdb at --core N --count N [--log reduced|regulated] [--latest] <RECORDING >CORE
rtr_gdb FILE [--log reduced|regulated]
rtr_gdb --help
rtr_gdb --version
The manual is docs/FORMATS.md, and docs/TUTORIAL.md has a session.
";

/// Which program it is.
const VERSION: &str = "rtr_gdb, for recordings in versions 1 and 2\n";

/// The text that is asked for.
pub(crate) fn text_of(asked: Question) -> &'static str {
    match asked {
        Question::Help => USES,
        Question::Version => VERSION,
    }
}

/// What is told of words that ask for nothing: in a line which word is at fault and why, as of the words of `rtr at` and
/// `rtr replay`, and then how the program is used. `None` where the words ask for something. The only refusal is want of
/// memory.
pub(crate) fn usage_told(alloc: Global, words: &[String]) -> Result<Option<String>, AllocError> {
    if session_log(alloc, words)?.is_some() || moment_in(alloc, words)?.is_some() {
        return Ok(None);
    }
    let mut text = line_of(alloc, words)?;
    text.push_str(USES)?;
    Ok(Some(text))
}

/// The line that says which word is at fault and why.
fn line_of(alloc: Global, words: &[String]) -> Result<String, AllocError> {
    if words.is_empty() {
        return String::from_str(alloc, "rtr: no file is named\n");
    }
    let read = read_as(alloc, words)?;
    match fault(read.as_slice()) {
        Some(fault) => fault_line(alloc, words, fault),
        None => other_line(alloc, words),
    }
}

/// The line of words that `rtr` takes and this program doesn't.
fn other_line(alloc: Global, words: &[String]) -> Result<String, AllocError> {
    let mut text = String::new(alloc);
    for word in words {
        let word = word.as_str();
        if word == "--loads" || word.starts_with("--threads") {
            writeln!(text, "rtr: {word}: the program has no such option")?;
            return Ok(text);
        }
    }
    Ok(text)
}
