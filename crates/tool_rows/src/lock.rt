//! Two cores that take a lock by turns.

use crate::calls::ask;
use std::alloc::{AllocError, Global};
use std::sync::Wait;
use std::thread::Threads;

/// The options of a run of the lock by two cores.
const OPTIONS: &str = "--cores 2 --limit 100000 --words 128 --seed 7";

/// What a command with these options makes of the image of a lock that each core takes 500 times.
pub fn of_the_lock(
    rt: &(impl Threads + Wait + Sync),
    alloc: Global,
    command: &str,
    more: &str,
) -> Result<Vec<u8>, AllocError> {
    let image = ask(rt, alloc, "gen --shape lock --number 500", Vec::new(alloc))?.output;
    let words = format!(in alloc; "{command} {OPTIONS}{more}")?;
    Ok(ask(rt, alloc, &words, image)?.output)
}
