//! One call of the tool over streams in memory.

use crate::table_calls::Call;
use replay_threads::{Gate, OpenGate};
use row_texts::words;
use rtr_cli::run_tool;
use rtr_io::{MemSink, MemSource};
use std::alloc::{AllocError, Global};
use std::process::Abort;
use std::sync::Wait;
use std::thread::Threads;

/// Room for the longest output of a row.
const ROOM: usize = 1_000_000;

/// More than any call moves.
const ALL: usize = 1 << 20;

/// How a call of the tool ended, and whether with a closed table.
#[derive(Clone, Copy)]
struct End {
    status: u8,
    joint: bool,
}

/// How a call of the tool ended, whether with a closed table, and what it gave.
#[derive(Drop)]
pub struct Answer {
    pub status: u8,
    pub joint: bool,
    pub output: Vec<u8>,
    pub report: Vec<u8>,
}

/// The streams of a call.
pub struct Streams {
    pub input: MemSource,
    pub output: MemSink,
    pub report: MemSink,
}

impl Drop for Streams {
    fn drop(self) {
        let Streams {
            input: _input,
            output: _output,
            report: _report,
        } = self;
    }
}

/// A source of these bytes of which the call with this number fails (0 for none), and of which no call takes more than
/// so many.
pub fn source(
    alloc: Global,
    bytes: Vec<u8>,
    fails: u64,
    most: usize,
) -> Result<MemSource, AllocError> {
    Ok(MemSource::new(bytes, vec![in alloc; fails]?, most.max(1)))
}

/// A sink with so much room of which the call with this number fails (0 for none), and to which no call gives more than
/// so many bytes.
pub fn sink(alloc: Global, room: usize, fails: u64, most: usize) -> Result<MemSink, AllocError> {
    MemSink::new(alloc, room, vec![in alloc; fails]?, most.max(1))
}

/// The tool's answer to these words and this input, where nothing fails and the gate stands open.
pub fn ask<R: Threads + Wait + Sync>(
    rt: &R,
    alloc: Global,
    line: &str,
    input: Vec<u8>,
) -> Result<Answer, AllocError> {
    ask_at(rt, alloc, line, input, &OpenGate)
}

/// The same where workers pass this gate.
pub fn ask_at<R: Threads + Wait + Sync, G: Gate>(
    rt: &R,
    alloc: Global,
    line: &str,
    input: Vec<u8>,
    gate: &G,
) -> Result<Answer, AllocError> {
    let mut streams = Streams {
        input: source(alloc, input, 0, ALL)?,
        output: sink(alloc, ROOM, 0, ALL)?,
        report: sink(alloc, ROOM, 0, ALL)?,
    };
    ask_over(rt, alloc, line, &mut streams, gate)
}

/// The tool's answer to these words over these streams, where workers pass this gate.
pub fn ask_over<R: Threads + Wait + Sync, G: Gate>(
    rt: &R,
    alloc: Global,
    line: &str,
    streams: &mut Streams,
    gate: &G,
) -> Result<Answer, AllocError> {
    let End { status, joint } = ended(rt, alloc, line, streams, gate)?;
    Ok(Answer {
        status,
        joint,
        output: streams.output.bytes().to_vec(alloc)?,
        report: streams.report.bytes().to_vec(alloc)?,
    })
}

/// How the call ends.
fn ended<R: Threads + Wait + Sync, G: Gate>(
    rt: &R,
    alloc: Global,
    line: &str,
    streams: &mut Streams,
    gate: &G,
) -> Result<End, AllocError> {
    let words = words(alloc, line)?;
    let told = run_tool(
        rt,
        alloc,
        words.as_slice(),
        &mut streams.input,
        &mut streams.output,
        &mut streams.report,
        gate,
    );
    Ok(End {
        status: told.exit.status(),
        joint: told.joint.is_some(),
    })
}

/// Compares an answer to these words.
pub fn compare<R: Abort>(
    rt: &R,
    words: &str,
    answer: &Answer,
    status: u8,
    output: &[u8],
    report: &[u8],
) {
    assert_eq!(rt; answer.status, status, "{words}");
    assert_eq!(rt; answer.output.as_slice(), output, "{words}");
    assert_eq!(rt; answer.report.as_slice(), report, "{words}");
}

/// Asks with these words and this input, where nothing fails and the gate stands open, and compares the answer.
pub fn asks<R: Abort + Threads + Wait + Sync>(
    rt: &R,
    alloc: Global,
    words: &str,
    input: Vec<u8>,
    status: u8,
    output: &[u8],
    report: &str,
) -> Result<(), AllocError> {
    let answer = ask(rt, alloc, words, input)?;
    compare(rt, words, &answer, status, output, report.as_bytes());
    Ok(())
}

/// The same of an answer that ends well.
pub fn gives<R: Abort + Threads + Wait + Sync>(
    rt: &R,
    alloc: Global,
    words: &str,
    input: Vec<u8>,
    output: &[u8],
) -> Result<(), AllocError> {
    asks(rt, alloc, words, input, 0, output, "")
}

/// Asks with these words what the call asks, and compares the answer.
pub fn is_answered<R: Abort + Threads + Wait + Sync>(
    rt: &R,
    alloc: Global,
    words: &str,
    call: &mut Call,
) -> Result<(), AllocError> {
    call.output.extend_from_slice(call.text.as_slice())?;
    let answer = ask(rt, alloc, words, call.input.clone()?)?;
    assert!(rt; call.is_plain, "{words}");
    let output = call.output.as_slice();
    compare(
        rt,
        words,
        &answer,
        call.status,
        output,
        call.report.as_slice(),
    );
    Ok(())
}

/// Asks with these words and so many bytes of the input, and compares the part that is named.
pub fn cut_names<R: Abort + Threads + Wait + Sync>(
    rt: &R,
    alloc: Global,
    words: &str,
    mut input: Vec<u8>,
    len: usize,
    part: u8,
) -> Result<(), AllocError> {
    input.truncate(len);
    let report = format!(in alloc; "rtr: bad input, part {part}\n")?;
    asks(rt, alloc, words, input, 3, b"".as_slice(), &report)
}
