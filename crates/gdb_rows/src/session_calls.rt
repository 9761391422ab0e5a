//! One session of the program over streams in memory.

use crate::calls::failing;
use crate::session_rows::{File, Row};
use gdb_cli::run_debugger;
use gdb_server::Streams;
use row_texts::{bytes, words};
use rtr_io::{MemSink, MemSource};
use std::alloc::{AllocError, Global};

/// Room for the longest output of a row, and the most bytes that a call of a stream moves.
const ROOM: usize = 10_000;

/// The bytes of a file.
fn bytes_of(alloc: Global, file: File) -> Result<Vec<u8>, AllocError> {
    let File(front, zeros, back) = file;
    let mut all = bytes(alloc, front)?;
    for _ in 0..zeros {
        all.push(0)?;
    }
    let back = bytes(alloc, back)?;
    all.extend_from_slice(back.as_slice())?;
    Ok(all)
}

/// A source of these bytes, of which the call with this number fails.
fn source(alloc: Global, bytes: Vec<u8>, fails: u64) -> Result<MemSource, AllocError> {
    Ok(MemSource::new(bytes, failing(alloc, fails)?, ROOM))
}

/// A sink of which the call with this number fails.
fn sink(alloc: Global, fails: u64) -> Result<MemSink, AllocError> {
    MemSink::new(alloc, ROOM, failing(alloc, fails)?, ROOM)
}

/// What there is before a row's call: its words, the one file, and what is sent.
#[derive(Drop)]
struct Given {
    words: Vec<String>,
    file: MemSource,
    input: MemSource,
}

/// That of a row.
fn prepared(alloc: Global, row: &Row) -> Result<Given, AllocError> {
    let words = words(alloc, row.words)?;
    let file = source(alloc, bytes_of(alloc, row.file)?, row.file_fails)?;
    let input = source(alloc, row.sent.to_vec(alloc)?, row.input_fails)?;
    Ok(Given { words, file, input })
}

/// The status with which the call ends. A file of another name is empty.
fn status(
    alloc: Global,
    given: Given,
    there: &str,
    output: MemSink,
    report: &mut MemSink,
) -> (u8, MemSink) {
    let Given { words, file, input } = given;
    let mut streams = Streams { input, output };
    let exit = run_debugger(
        alloc,
        words.as_slice(),
        move |name: &str| {
            if name.as_bytes() == there.as_bytes() {
                file
            } else {
                MemSource::new(Vec::new(alloc), Vec::new(alloc), ROOM)
            }
        },
        &mut streams,
        report,
    );
    (exit.status(), streams.output)
}

/// Whether the row's call comes to what the row says.
pub fn is_held(alloc: Global, row: &Row) -> Result<bool, AllocError> {
    let given = prepared(alloc, row)?;
    let output = sink(alloc, row.output_fails)?;
    let mut report = sink(alloc, 0)?;
    let (status, output) = status(alloc, given, row.name, output, &mut report);
    let said = output.bytes() == row.said && report.bytes() == row.report.as_bytes();
    Ok(status == row.status && said)
}
