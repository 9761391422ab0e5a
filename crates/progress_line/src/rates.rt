//! The runs that were made, and how many a second.
ghost use Rattle.std.specs.Prelude.{◌≡◌, IfOk, string_bytes};
ghost use Rattle.std.specs.Option.{option_map};
ghost use Rattle.progress_line.specs.Rates.{blank_line, rate_line};

use std::alloc::{AllocError, Global};

/// What is shown of so many runs that took so many milliseconds: on a terminal how many there were, and how many a
/// second, in a line that whatever comes next writes over; and nothing elsewhere. The only refusal is want of memory.
pub fn rate_line(
    alloc: Global,
    is_terminal: bool,
    runs: u64,
    millis: u64,
) -> Result<Option<String>, AllocError>
    ensures { IfOk result (λ line. option_map string_bytes line ≡ rate_line is_terminal runs millis) }
{
    if !is_terminal {
        return Ok(None);
    }
    let millis = if millis == 0 { 1 } else { millis };
    let rate = runs as u128 * 1000 / millis as u128;
    let mut line = String::new(alloc);
    write!(line, "rtr: {runs} runs, {rate} a second\r")?;
    Ok(Some(line))
}

/// What takes such a line away again: on a terminal blanks in its place, and nothing elsewhere.
pub fn blank_line(is_terminal: bool) -> Option<&'static str>
    ensures { option_map (λ line. line.now) result ≡ blank_line is_terminal }
{
    if is_terminal {
        Some("                                                                      \r")
    } else {
        None
    }
}
