//! The runs that are made, shown round by round.
use crate::rates::{blank_line, rate_line};
use std::io::{Eprint, IsTerminal, Stderr};
use std::rt::Clock;
use std::time::Instant;

/// Shows on standard error, where that is a terminal, how many runs were made and how many a second, and takes the time
/// of rounds. To a file or a pipe it shows nothing. Where the clock can't be read no time passes.
#[derive(Drop)]
pub struct RateScreen<'a, R> {
    rt: &'a R,
    is_terminal: bool,
    /// When the first round began.
    begun: Option<Instant>,
    /// When the last round ended.
    ended: Option<Instant>,
}

impl<'a, R: AllocGlobal + Clock + Eprint> RateScreen<'a, R> {
    /// Nothing is shown yet.
    pub fn new(rt: &'a R, screen: Stderr) -> RateScreen<'a, R> {
        RateScreen {
            rt,
            is_terminal: screen.is_terminal(),
            begun: None,
            ended: None,
        }
    }

    /// The first round begins.
    pub fn begin(&mut self) {
        self.begun = now(self.rt);
        self.ended = self.begun;
    }

    /// A round has ended, and so many runs were made in all. Shows them, and answers how many milliseconds the round
    /// took.
    pub fn round(&mut self, runs: u64) -> u64 {
        let now = now(self.rt);
        let millis = millis_between(self.ended, now);
        self.ended = now;
        self.show(runs, millis_between(self.begun, now));
        millis
    }

    /// Shows so many runs, which took so many milliseconds.
    fn show(&self, runs: u64, millis: u64) {
        if let Ok(Some(line)) = rate_line(self.rt.alloc(), self.is_terminal, runs, millis) {
            // Progress is a courtesy: where it can't be shown, the hunt goes on.
            let _ = eprint!(self.rt; "{line}");
        }
    }

    /// Takes away what is shown.
    pub fn wipe(&self) {
        if let Some(line) = blank_line(self.is_terminal) {
            let _ = eprint!(self.rt; "{line}");
        }
    }
}

/// What the clock reads, where it can be read.
fn now(clock: &impl Clock) -> Option<Instant> {
    match Instant::now(clock) {
        Ok(now) => Some(now),
        Err(_) => None,
    }
}

/// How many milliseconds lie between the two; none where one of them isn't known.
fn millis_between(earlier: Option<Instant>, later: Option<Instant>) -> u64 {
    match (earlier, later) {
        (Some(earlier), Some(later)) => {
            let millis = later.duration_since(earlier).as_millis();
            u64::try_from(millis).unwrap_or(u64::MAX)
        }
        _ => 0,
    }
}
