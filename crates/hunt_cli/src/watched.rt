//! The pace of a hunt that a person may watch.
use progress_line::RateScreen;
use run_ranges::{Batch, Pace};
use std::io::{Eprint, Stderr};
use std::rt::Clock;

/// Batches by the time that rounds take. After each round a terminal shows how many runs were made, and how many a
/// second.
#[derive(Drop)]
pub(crate) struct Watched<'a, R> {
    screen: RateScreen<'a, R>,
    batch: Batch,
}

impl<'a, R: AllocGlobal + Clock + Eprint> Watched<'a, R> {
    /// No round was made yet.
    pub(crate) fn new(rt: &'a R, screen: Stderr) -> Watched<'a, R> {
        Watched {
            screen: RateScreen::new(rt, screen),
            batch: Batch::one(),
        }
    }
}

impl<R: AllocGlobal + Clock + Eprint> Pace for Watched<'_, R> {
    fn batch(&mut self, done: u64) -> u64 {
        if done == 0 {
            self.screen.begin();
        } else {
            let millis = self.screen.round(done);
            self.batch = self.batch.after(millis);
        }
        self.batch.runs
    }

    fn over(&mut self) {
        self.screen.wipe();
    }
}
