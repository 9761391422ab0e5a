//! One call of the program over streams in memory.

use crate::core_rows::Row;
use gdb_cli::write_core;
use row_texts::{bytes, words};
use rtr_io::{MemSink, MemSource};
use std::alloc::{AllocError, Global};

/// Room for the longest output of a row.
const ROOM: usize = 10_000;

/// How a call ended, and what it gave.
#[derive(Drop)]
pub struct Answer {
    pub status: u8,
    pub given: usize,
    pub sum: u32,
    pub report: Vec<u8>,
}

/// The list of one call that fails, or of none for 0.
pub fn failing(alloc: Global, call: u64) -> Result<Vec<u64>, AllocError> {
    let mut calls = Vec::new(alloc);
    if call > 0 {
        calls.push(call)?;
    }
    Ok(calls)
}

/// The sum of the bytes, by FNV-1a.
fn sum_of(bytes: &[u8]) -> u32 {
    let mut sum = 0x811c_9dc5;
    for byte in bytes {
        sum = (sum ^ *byte as u32).wrapping_mul(0x0100_0193);
    }
    sum
}

/// The answer to a row.
pub fn ask(alloc: Global, row: &Row) -> Result<Answer, AllocError> {
    let words = words(alloc, row.words)?;
    let mut input = MemSource::new(
        bytes(alloc, row.input)?,
        failing(alloc, row.input_fails)?,
        ROOM,
    );
    let mut output = MemSink::new(
        alloc,
        ROOM,
        failing(alloc, row.output_fails)?,
        row.most.max(1),
    )?;
    let mut report = MemSink::new(alloc, ROOM, Vec::new(alloc), ROOM)?;
    let exit = write_core(
        alloc,
        words.as_slice(),
        &mut input,
        &mut output,
        &mut report,
    );
    Ok(Answer {
        status: exit.status(),
        given: output.bytes().len(),
        sum: sum_of(output.bytes()),
        report: report.bytes().to_vec(alloc)?,
    })
}
