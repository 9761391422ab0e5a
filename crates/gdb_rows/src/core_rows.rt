//! Core files of moments, and how others end. The sums are of files that a plain program made from the states that
//! `rtr at` prints.

/// A call: its words and its input in hexadecimal digits; the call of the input and of the output that fails (0 for
/// none), and the most bytes that a call of the output takes; then the status, how many bytes were given with their
/// sum, and the report.
pub struct Row {
    pub words: &'static str,
    pub input: &'static str,
    pub input_fails: u64,
    pub output_fails: u64,
    pub most: usize,
    pub status: u8,
    pub given: usize,
    pub sum: u32,
    pub report: &'static str,
}

/// The sum of no bytes.
const NOTHING: u32 = 0x811c_9dc5;

/// The sum of the first hundred bytes of the first file.
const FIRST_HUNDRED: u32 = 0xe212_dde0;

/// A recording of two cores: `bne x10,x0,+20; addi x5,x0,7; sw x5,64(x0); lw x6,64(x0); ecall; lw x7,64(x0);
/// sw x10,64(x0); ecall`. Core 1 reads what core 0 wrote, and writes before core 0 reads.
const HANDED_OVER: &str = "52545201 02 904e 20 20 \
    631a0500 93027000 23205004 03230004 73000000 83230004 2320a004 73000000 \
    0504 01 02 03 01 04 03 01 01 03 02 01 01 03 04";

/// A recording of two cores that write the same word, whose reduced log orders the writes and whose regulated log is
/// empty.
const HALF_ORDERED: &str = "52545201 02 904e 10 0c 93025500 23205002 73000000 0303 010202 00 00 00";

/// The first two bytes of a recording.
const CUT_SHORT: &str = "5254";

macro_rules! made {
    ($words:expr, $sum:expr) => {
        Row {
            words: $words,
            input: HANDED_OVER,
            input_fails: 0,
            output_fails: 0,
            most: 10_000,
            status: 0,
            given: 692,
            sum: $sum,
            report: "",
        }
    };
}

macro_rules! refused {
    ($words:expr, $input:expr, $status:expr, $report:expr) => {
        Row {
            words: $words,
            input: $input,
            input_fails: 0,
            output_fails: 0,
            most: 10_000,
            status: $status,
            given: 0,
            sum: NOTHING,
            report: $report,
        }
    };
}

/// Words that mean nothing.
macro_rules! unmeant {
    ($words:literal) => {
        refused!($words, HANDED_OVER, 1, "rtr: usage\n")
    };
}

/// A call whose input or output fails, the output taking so many bytes at the most: its status, how many bytes were
/// given, their sum, and the report.
macro_rules! failed {
    ($input:literal, $output:literal, $most:literal => $status:literal, $given:literal, $sum:expr, $report:literal) => {
        Row {
            words: "at --core 1 --count 2",
            input: HANDED_OVER,
            input_fails: $input,
            output_fails: $output,
            most: $most,
            status: $status,
            given: $given,
            sum: $sum,
            report: $report,
        }
    };
}

/// The rows.
pub static ROWS: [Row; 16] = [
    made!("at --core 1 --count 2", 0x0a30_026b),
    made!("at --log regulated --count=2 --core 1", 0x0a30_026b),
    made!("at --core 0 --count 3 --latest", 0x070a_a50b),
    unmeant!("at --core 1 --count 2 --loads"),
    unmeant!("at --core 1"),
    unmeant!("print"),
    unmeant!(""),
    refused!(
        "at --core 0 --count 6",
        HANDED_OVER,
        12,
        "rtr: no instruction 0:6\n"
    ),
    refused!(
        "at --core 2 --count 1",
        HANDED_OVER,
        12,
        "rtr: no instruction 2:1\n"
    ),
    refused!(
        "at --core 0 --count 1",
        CUT_SHORT,
        3,
        "rtr: bad input, part 1\n"
    ),
    refused!(
        "at --core 0 --count 1 --log regulated",
        HALF_ORDERED,
        6,
        "rtr: no order from 0:2 to 1:2\n"
    ),
    // Streams that fail, the output after 100 bytes.
    failed!(1, 0, 10_000 => 8, 0, NOTHING, "rtr: read fault\n"),
    failed!(2, 0, 10_000 => 8, 0, NOTHING, "rtr: read fault\n"),
    failed!(0, 1, 10_000 => 9, 0, NOTHING, "rtr: write fault\n"),
    failed!(0, 2, 100 => 9, 100, FIRST_HUNDRED, "rtr: write fault\n"),
    failed!(0, 0, 100 => 0, 692, 0x0a30_026b, ""),
];
