//! Sessions on recordings, to the byte: what a debugger sends, and what is said.

/// A file: a front in hexadecimal digits, so many zeros, and a back.
#[derive(Clone, Copy)]
pub struct File(pub &'static str, pub usize, pub &'static str);

/// A call: its words; the name of the one file that there is, the file, and the call of it that fails (0 for none);
/// what is sent, and the calls of the input and of the output that fail; then the status, what was said, and the
/// report.
pub struct Row {
    pub words: &'static str,
    pub name: &'static str,
    pub file: File,
    pub file_fails: u64,
    pub sent: &'static [u8],
    pub input_fails: u64,
    pub output_fails: u64,
    pub status: u8,
    pub said: &'static [u8],
    pub report: &'static str,
}

/// A recording of two cores that count one word up.
const COUNT: File = File(
    "5254520202904e808001f4211311a500b78200003301510013010140ef000004 \
    73000000130101fd2326810213040103232ea4fc232cb4fc0327c4fd832784fd \
    b307f7002326f4fe8327c4fe138507000324c1021301010367800000130101fd \
    232611022324810213040103232ea4fc232604fe6f008003b717000083a7070f \
    2324f4fe93051000032584fe97000000e78080f913070500b717000023a8e70e \
    8327c4fe938717002326f4fe0327c4fe93072000e3d2e7fc1300000013000000 \
    8320c1020324810213010103678000001400000000000000037a5200017c0101 \
    1b0d020701000000100000001c0000001cffffff18",
    4107,
    "707005270111080116160108080116160108032700271e001e1e001e01032727 \
    1e1e030211271608022f451608014d63",
);

/// A recording of two cores that write the same word, whose reduced log orders the writes and whose regulated log is
/// empty.
const HALF_ORDERED: File = File(
    "52545201 02 904e 10 0c 93025500 23205002 73000000 0303 010202 00 00 00",
    0,
    "",
);

/// The same, where each write waits for the other.
const GOES_ROUND: File = File(
    "52545201 02 904e 10 0c 93025500 23205002 73000000 0303 010202 010202 00 00",
    0,
    "",
);

/// The first two bytes of a recording.
const CUT_SHORT: File = File("5254", 0, "");

/// What a debugger sends first, and an end at once behind it.
const FIRST: &[u8] = b"+$qSupported:swbreak+#8b";

/// What is said to that.
const FEATURES: &[u8] =
    b"+$PacketSize=1000;QStartNoAckMode+;vContSupported+;swbreak+;hwbreak+;ReverseStep+;ReverseContinue+;qXf\
        er:features:read+;qXfer:threads:read+#83";

/// The name of the file.
const NAME: &str = "a.recording";

/// What a debugger sends, and is said, in a session whose bytes were worked out from the protocol.
const SENT: &[u8] =
    b"+$qSupported:swbreak+#8b$vMustReplyEmpty#3a$Hg0#00$Hg0#df-$m0,4#fd$m0,4#FDxyz\x03+$qC#b4$m0,4#fd$m4,4#\
        01$qRcmd,637574}\x03#e3$m0,4#zz$QStartNoAckMode#b0+$Hg0#00$Hg0#df$D#44$m0,4#fd";

const SAID: &[u8] =
    b"+$PacketSize=1000;QStartNoAckMode+;vContSupported+;swbreak+;hwbreak+;ReverseStep+;ReverseContinue+;qXf\
        er:features:read+;qXfer:threads:read+#83+$#00-+$OK#9a$OK#9a+$1311a500#bc+$1311a500#bc+$QC1#c5+$1311a50\
        0#bc+$b7820000#c3+$E01#a6-+$OK#9a$OK#9a$OK#9a";

/// A row in which no stream fails.
macro_rules! held {
    ($words:expr, $file:expr, $sent:expr, $status:expr, $said:expr, $report:expr) => {
        Row {
            words: $words,
            name: NAME,
            file: $file,
            file_fails: 0,
            sent: $sent,
            input_fails: 0,
            output_fails: 0,
            status: $status,
            said: $said,
            report: $report,
        }
    };
}

/// A row in which the named call of a stream fails.
macro_rules! failing {
    ($file_fails:expr, $input_fails:expr, $output_fails:expr, $status:expr, $said:expr, $report:expr) => {
        Row {
            words: NAME,
            name: NAME,
            file: HALF_ORDERED,
            file_fails: $file_fails,
            sent: FIRST,
            input_fails: $input_fails,
            output_fails: $output_fails,
            status: $status,
            said: $said,
            report: $report,
        }
    };
}

/// The rows.
pub static ROWS: [Row; 18] = [
    // In turn: an acknowledgement before anything, then a packet; an unknown one; a wrong sum, and the right one; an
    // answer that is sent again; a packet in three pieces; a sum in capitals; bytes between packets, an interrupt among
    // them; two packets in one piece; an escaped byte; a sum that is no number; no acknowledgements from here on, where
    // a wrong sum has no answer; the end, behind which nothing is heard.
    held!("a.recording", COUNT, SENT, 0, SAID, ""),
    held!("a.recording", HALF_ORDERED, FIRST, 0, FEATURES, ""),
    held!(
        "a.recording --log=reduced",
        HALF_ORDERED,
        FIRST,
        0,
        FEATURES,
        ""
    ),
    held!(
        "a.recording --log regulated",
        HALF_ORDERED,
        FIRST,
        6,
        b"+",
        "rtr: no order from 0:2 to 1:2\n"
    ),
    held!(
        "a.recording",
        CUT_SHORT,
        FIRST,
        3,
        b"+",
        "rtr: bad input, part 1\n"
    ),
    held!(
        "a.recording",
        GOES_ROUND,
        FIRST,
        4,
        b"+",
        "rtr: stuck at 1 1\n"
    ),
    held!(
        "b.recording",
        HALF_ORDERED,
        FIRST,
        3,
        b"+",
        "rtr: bad input, part 1\n"
    ),
    // Without a packet the recording isn't looked at.
    held!("a.recording", CUT_SHORT, b"+\x03$qSupported", 0, b"", ""),
    held!("", HALF_ORDERED, FIRST, 1, b"", "rtr: usage\n"),
    held!("at", HALF_ORDERED, FIRST, 1, b"", "rtr: usage\n"),
    held!(
        "a.recording --loads",
        HALF_ORDERED,
        FIRST,
        1,
        b"",
        "rtr: usage\n"
    ),
    held!(
        "a.recording --threads 1",
        HALF_ORDERED,
        FIRST,
        1,
        b"",
        "rtr: usage\n"
    ),
    held!(
        "a.recording a.recording",
        HALF_ORDERED,
        FIRST,
        1,
        b"",
        "rtr: usage\n"
    ),
    // Streams that fail: the file, the input before a packet and behind one, the output at once and at an answer.
    failing!(1, 0, 0, 8, b"+", "rtr: read fault\n"),
    failing!(0, 3, 0, 8, b"", "rtr: read fault\n"),
    failing!(0, 25, 0, 8, FEATURES, "rtr: read fault\n"),
    failing!(0, 0, 1, 9, b"", "rtr: write fault\n"),
    failing!(0, 0, 2, 9, b"+", "rtr: write fault\n"),
];
