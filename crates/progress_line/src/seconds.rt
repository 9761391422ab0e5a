//! The seconds that the work takes.
ghost use Rattle.std.specs.Prelude.{◌≡◌, IfOk, string_bytes};
ghost use Rattle.std.specs.Option.{option_map};
ghost use Rattle.progress_line.specs.Seconds.{second_line};

use std::alloc::{AllocError, Global};
use std::io::{Eprint, IsTerminal, Stderr};
use std::rt::Clock;
use std::thread::{self, Threads};
use std::time::Duration;

/// The most seconds that are told: a day's.
const SECONDS_MAX: u32 = 86_400;

/// Where standard error is a terminal, tells there each second how long the work takes, as `rtr: 12 s`, in a line that
/// whatever comes next writes over. A thread of its own does so until the program ends; where none can be started, or
/// standard error is a file or a pipe, nothing is shown.
pub fn show<R: AllocGlobal + Clock + Eprint + Threads + Clone + Send + Drop + 'static>(
    rt: &R,
    screen: Stderr,
) {
    let is_terminal = screen.is_terminal();
    if !is_terminal {
        return;
    }
    let clock = match rt.clone() {
        Ok(clock) => clock,
        Err(_) => return,
    };
    match thread::spawn(rt, move || tell_each_second(&clock, is_terminal)) {
        Ok(_) | Err(_) => {}
    }
}

/// Tells each second how many there were.
fn tell_each_second<R: AllocGlobal + Clock + Eprint>(rt: &R, is_terminal: bool) {
    for seconds in 1..=SECONDS_MAX {
        thread::sleep(rt, Duration::from_secs(1));
        if let Ok(Some(line)) = second_line(rt.alloc(), is_terminal, seconds) {
            // Progress is a courtesy: where it can't be shown, the run goes on.
            let _ = eprint!(rt; "{line}");
        }
    }
}

/// What is shown after so many seconds: on a terminal the seconds, and nothing elsewhere. The only refusal is want of
/// memory.
pub fn second_line(
    alloc: Global,
    is_terminal: bool,
    seconds: u32,
) -> Result<Option<String>, AllocError>
    ensures { IfOk result (λ line. option_map string_bytes line ≡ second_line is_terminal seconds) }
{
    if !is_terminal {
        return Ok(None);
    }
    let mut line = String::new(alloc);
    write!(line, "rtr: {seconds} s\r")?;
    Ok(Some(line))
}
