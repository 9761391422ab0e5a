//! Sources and sinks that fail.

use crate::calls::{Streams, ask_over, compare, sink, source};
use replay_threads::OpenGate;
use row_texts::bytes;
use std::alloc::{AllocError, Global};
use std::process::Abort;
use std::sync::Wait;
use std::test::Fail;
use std::thread::Threads;

/// The words; the call of the input, of the output and of the report that fails (0 for none), and the most
/// bytes that a call of the output takes; then the status, how many bytes of the output were given, and the
/// report.
struct Row {
    words: &'static str,
    input_fails: u64,
    output_fails: u64,
    report_fails: u64,
    most: usize,
    status: u8,
    given: usize,
    report: &'static str,
}

/// The whole output of `record` of one ECALL.
const OUTPUT: &str = "52545202 01 904e 808001 04 73000000 01";

macro_rules! fault {
    ($words:expr, $input:expr, $output:expr, $report:expr, $most:expr, $status:expr, $given:expr, $text:expr) => {
        Row {
            words: $words,
            input_fails: $input,
            output_fails: $output,
            report_fails: $report,
            most: $most,
            status: $status,
            given: $given,
            report: $text,
        }
    };
}

static ROWS: [Row; 22] = [
    fault!("record", 1, 0, 0, 99, 8, 0, "rtr: read fault\n"),
    fault!("record", 2, 0, 0, 99, 8, 0, "rtr: read fault\n"),
    fault!("record", 0, 1, 0, 99, 9, 0, "rtr: write fault\n"),
    // A sink that takes one byte a call got what it took before the call that failed.
    fault!("record", 0, 1, 0, 1, 9, 0, "rtr: write fault\n"),
    fault!("record", 0, 2, 0, 1, 9, 1, "rtr: write fault\n"),
    fault!("record", 0, 3, 0, 1, 9, 2, "rtr: write fault\n"),
    fault!("record", 0, 4, 0, 1, 9, 3, "rtr: write fault\n"),
    fault!("record", 0, 5, 0, 1, 9, 4, "rtr: write fault\n"),
    fault!("record", 0, 6, 0, 1, 9, 5, "rtr: write fault\n"),
    fault!("record", 0, 7, 0, 1, 9, 6, "rtr: write fault\n"),
    fault!("record", 0, 8, 0, 1, 9, 7, "rtr: write fault\n"),
    fault!("record", 0, 9, 0, 1, 9, 8, "rtr: write fault\n"),
    fault!("record", 0, 10, 0, 1, 9, 9, "rtr: write fault\n"),
    fault!("record", 0, 11, 0, 1, 9, 10, "rtr: write fault\n"),
    fault!("record", 0, 12, 0, 1, 9, 11, "rtr: write fault\n"),
    fault!("record", 0, 13, 0, 1, 9, 12, "rtr: write fault\n"),
    fault!("record", 0, 14, 0, 1, 9, 13, "rtr: write fault\n"),
    fault!("record", 0, 15, 0, 1, 9, 14, "rtr: write fault\n"),
    fault!("record", 0, 16, 0, 1, 9, 15, "rtr: write fault\n"),
    fault!("record", 0, 17, 0, 1, 0, 16, ""),
    fault!("record", 1, 0, 1, 99, 8, 0, ""),
    fault!("", 0, 0, 1, 99, 1, 0, ""),
];

/// The streams of the row, over the image of one ECALL.
fn streams_of(alloc: Global, row: &Row) -> Result<Streams, AllocError> {
    Ok(Streams {
        input: source(alloc, bytes(alloc, "73000000")?, row.input_fails, 99)?,
        output: sink(alloc, 99, row.output_fails, row.most)?,
        report: sink(alloc, 99, row.report_fails, 99)?,
    })
}

/// Asks what the row asks, and compares the answer.
fn is_failed(
    rt: &(impl Abort + Threads + Wait + Sync),
    alloc: Global,
    row: &Row,
) -> Result<(), AllocError> {
    let mut streams = streams_of(alloc, row)?;
    let answer = ask_over(rt, alloc, row.words, &mut streams, &OpenGate)?;
    let mut given = bytes(alloc, OUTPUT)?;
    given.truncate(row.given);
    let report = row.report.as_bytes();
    compare(rt, row.words, &answer, row.status, given.as_slice(), report);
    Ok(())
}

#[test]
fn a_fault_is_told_and_a_fault_of_the_report_changes_nothing(rt: HostRuntime) -> Result<(), Fail> {
    for row in &ROWS {
        is_failed(&rt, rt.alloc(), row)?;
    }
    Ok(())
}
