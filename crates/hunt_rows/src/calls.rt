//! One call of the program over streams in memory.

use crate::rows::Row;
use hunt_cli::run_hunt;
use row_texts::{bytes, words};
use rtr_io::{MemSink, MemSource};
use run_ranges::Pace;
use std::alloc::Global;
use std::test::Fail;
use std::thread::Threads;

/// Room for the longest output of a row.
const ROOM: usize = 10_000;

/// How a call ended, and what it gave.
#[derive(Drop)]
pub struct Answer {
    pub status: u8,
    pub given: Vec<u8>,
    pub report: Vec<u8>,
}

/// Five runs a batch.
#[derive(Drop)]
struct Fives;

impl Pace for Fives {
    fn batch(&mut self, _done: u64) -> u64 {
        5
    }

    fn over(&mut self) {}
}

/// The answer to a row.
pub fn ask<R: Threads + Sync>(rt: &R, alloc: Global, row: &Row) -> Result<Answer, Fail> {
    let words = words(alloc, row.words)?;
    let mut input = MemSource::new(bytes(alloc, row.image)?, Vec::new(alloc), ROOM);
    let mut output = MemSink::new(alloc, ROOM, Vec::new(alloc), ROOM)?;
    let mut report = MemSink::new(alloc, ROOM, Vec::new(alloc), ROOM)?;
    let exit = run_hunt(
        rt,
        alloc,
        &mut Fives,
        words.as_slice(),
        &mut input,
        &mut output,
        &mut report,
    );
    Ok(Answer {
        status: exit.status(),
        given: output.bytes().to_vec(alloc)?,
        report: report.bytes().to_vec(alloc)?,
    })
}
