//! The rows: what is asked of which image, and the answer.

/// A call, and how it is answered.
pub struct Row {
    /// The image's bytes as hexadecimal digits.
    pub image: &'static str,
    pub words: &'static str,
    pub status: u8,
    pub given: &'static str,
    pub report: &'static str,
}

/// Each core loads the word at 40, adds one, and stores it.
const LOST_UPDATE: &str = "83220004 93821200 23205004 73000000";

/// Each core stores to its own word and loads the other's.
const STORE_BUFFERING: &str = "13136500 93020008 b3826240 93031000 23207304 03ae0200 73000000";

/// Three cores meet.
const BARRIER: &str =
    "93021500 13134500 23205304 93030008 13041000 2fa08300 93043000 83250008 e39e95fe 13030301 \
     13060003 6314c300 13030000 83260304 73000000";

/// Peterson's lock, in which each core counts to two.
const PETERSON: &str =
    "93022000 13132500 93431500 13942300 93041000 23209308 23247008 83250408 63860500 03268008 \
     e30a76fe 83260009 93861600 2328d008 23200308 9382f2ff e39a02fc 73000000";

/// Each core stores 1 to the word at 44, loads both words, and stores its number plus one to both.
const OWN_STORE: &str = "93021500 13031300 23226004 03230004 032e4004 23205004 23225004 73000000";

/// The first run of a range that breaks a claim, or that none does.
pub static FOUND: [Row; 9] = [
    Row {
        image: LOST_UPDATE,
        words: "first --expect [40]=2 --cores 2 --words 32",
        status: 15,
        given: "run 2\n\
                turns 0*1\n\
                ends [40]=1\n\
                rtr record --cores 2 --words 32 --choices 0001010001010101010101010101000000000000\n",
        report: "rtr: run 2 breaks it\n",
    },
    Row {
        image: LOST_UPDATE,
        words: "first --by few --expect [40]=2 --cores 2 --words 32",
        status: 15,
        given: "run 1\n\
                turns 0*1\n\
                ends [40]=1\n\
                rtr record --cores 2 --words 32 --choices 0001010001010101010101010101000000000000\n",
        report: "rtr: run 1 breaks it\n",
    },
    Row {
        image: LOST_UPDATE,
        words: "first --by seed --plain --expect [40]=2 --cores 2 --words 32",
        status: 15,
        given: "run 0\nends [40]=1\nrtr record --cores 2 --words 32\n",
        report: "rtr: run 0 breaks it\n",
    },
    Row {
        image: LOST_UPDATE,
        words: "first --runs 0..99 --same [40] --cores 2 --words 32",
        status: 15,
        given: "run 2\n\
                turns 0*1\n\
                ends [40]=1\n\
                rtr record --cores 2 --words 32 --choices 0001010001010101010101010101000000000000\n",
        report: "rtr: run 2 breaks it\n",
    },
    Row {
        image: LOST_UPDATE,
        words: "first --never [40]=3 --runs 5..300 --threads 1 --cores 2 --words 32",
        status: 0,
        given: "none 5..300\n",
        report: "",
    },
    Row {
        image: LOST_UPDATE,
        words: "first --never [40]=3 --runs 5..300 --threads 2 --cores 2 --words 32",
        status: 0,
        given: "none 5..300\n",
        report: "",
    },
    Row {
        image: LOST_UPDATE,
        words: "first --never [40]=3 --runs 5..300 --threads 3 --cores 2 --words 32",
        status: 0,
        given: "none 5..300\n",
        report: "",
    },
    Row {
        image: LOST_UPDATE,
        words: "first --never [40]=3 --runs 5..300 --threads 8 --cores 2 --words 32",
        status: 0,
        given: "none 5..300\n",
        report: "",
    },
    Row {
        image: BARRIER,
        words: "first --same 0:x13,1:x13,2:x13 --runs 0..199 --cores 3 --words 64",
        status: 0,
        given: "none 0..199\n",
        report: "",
    },
];

/// The words of a run.
pub static WORDS: [Row; 6] = [
    Row {
        image: LOST_UPDATE,
        words: "words --turns - --cores 2 --words 32",
        status: 0,
        given: "rtr record --cores 2 --words 32 --choices 0001010000010100000000000000000000000000\n",
        report: "",
    },
    Row {
        image: LOST_UPDATE,
        words: "words --turns 1*1 --cores 2 --words 32",
        status: 0,
        given: "rtr record --cores 2 --words 32 --choices 0101010100010100000101010100000000000000\n",
        report: "",
    },
    Row {
        image: LOST_UPDATE,
        words: "words --turns 1*2,0*1 --cores 2 --words 32",
        status: 0,
        given: "rtr record --cores 2 --words 32 --choices 0101010101010101000000000000000000000000\n",
        report: "",
    },
    Row {
        image: LOST_UPDATE,
        words: "words --by walk --run 2 --cores 2 --words 32",
        status: 0,
        given: "rtr record --cores 2 --words 32 --choices 0101010100010100000101010100000000000000\n",
        report: "",
    },
    Row {
        image: LOST_UPDATE,
        words: "words --by pct3 --run 0 --cores 2 --words 32",
        status: 0,
        given: "rtr record --cores 2 --words 32 --choices 0101010101010101000000000000000000000000\n",
        report: "",
    },
    Row {
        image: LOST_UPDATE,
        words: "words --by seed --run 17 --cores 2 --words 32",
        status: 0,
        given: "rtr record --cores 2 --words 32 --seed 17\n",
        report: "",
    },
];

/// A run made small.
pub static SMALL: [Row; 2] = [
    Row {
        image: LOST_UPDATE,
        words: "small --by seed --run 0 --expect [40]=2 --cores 2 --words 32",
        status: 0,
        given: "turns 1*1\n\
                ends [40]=1\n\
                rtr record --cores 2 --words 32 --choices 0101010100010100000101010100000000000000\n",
        report: "",
    },
    Row {
        image: LOST_UPDATE,
        words: "small --turns - --expect [40]=2 --cores 2 --words 32",
        status: 16,
        given: "",
        report: "rtr: the run doesn't break it\n",
    },
];

/// Tables of ranges.
pub static TABLES: [Row; 3] = [
    Row {
        image: STORE_BUFFERING,
        words: "table --runs 0..999 --never 0:x28=0,1:x28=0 --tso --cores 2 --words 64",
        status: 15,
        given: "runs 0..999 outcomes 4\n\
                257 *> 0:x28=0 1:x28=0 run 1\n\
                240 :> 0:x28=0 1:x28=1 run 0\n\
                253 :> 0:x28=1 1:x28=0 run 4\n\
                250 :> 0:x28=1 1:x28=1 run 16\n\
                breaks 257\n",
        report: "rtr: 257 of 1000 runs break it\n",
    },
    Row {
        image: STORE_BUFFERING,
        words: "table --runs 0..999 --never 0:x28=0,1:x28=0 --cores 2 --words 64",
        status: 0,
        given: "runs 0..999 outcomes 3\n\
                294 :> 0:x28=0 1:x28=1 run 0\n\
                305 :> 0:x28=1 1:x28=0 run 2\n\
                401 :> 0:x28=1 1:x28=1 run 7\n\
                breaks 0\n",
        report: "",
    },
    Row {
        image: STORE_BUFFERING,
        words: "table --runs 0..999 --never 0:x28=0,1:x28=0 --threads 3 --cores 2 --words 64",
        status: 0,
        given: "runs 0..999 outcomes 3\n\
                294 :> 0:x28=0 1:x28=1 run 0\n\
                305 :> 0:x28=1 1:x28=0 run 2\n\
                401 :> 0:x28=1 1:x28=1 run 7\n\
                breaks 0\n",
        report: "",
    },
];

/// Runs of cores with store buffers.
pub static BUFFERED: [Row; 5] = [
    Row {
        image: STORE_BUFFERING,
        words: "words --tso --turns - --cores 2 --words 64",
        status: 0,
        given: "rtr tsorecord --cores 2 --words 64 --choices \
                000000000001010101010002020000010100000101010100000000000000\n",
        report: "",
    },
    Row {
        image: STORE_BUFFERING,
        words: "words --tso --turns 0*1,w0*1 --cores 2 --words 64",
        status: 0,
        given: "rtr tsorecord --cores 2 --words 64 --choices \
                000000000001010101010002020001020201000000000000000000000000\n",
        report: "",
    },
    Row {
        image: PETERSON,
        words: "first --tso --expect [90]=4,all:exit --cores 2 --words 64",
        status: 15,
        given: "run 0\n\
                turns -\n\
                ends [90]=2 0:exit 1:exit\n\
                rtr tsorecord --cores 2 --words 64 --choices \
                000000000000000101010101010100020200000202000000000000010100000101000000000000010101010000010100\
                010202020201010100000000000000000000000000000000000001010001010101010101010000000000000000000000\n",
        report: "rtr: run 0 breaks it\n",
    },
    Row {
        image: PETERSON,
        words: "first --runs 0..199 --expect [90]=4,all:exit --cores 2 --words 64",
        status: 0,
        given: "none 0..199\n",
        report: "",
    },
    // The run's accesses, as turns, don't break it: one of its loads is logged.
    Row {
        image: OWN_STORE,
        words: "small --tso --by walk --run 0 --never [44]=1 --cores 2 --words 32",
        status: 0,
        given: "turns 1*2,w1*3\n\
                ends [44]=1\n\
                rtr tsorecord --cores 2 --words 32 --choices \
                0000000101010102020101010102020202020202000000000000000000000000000000000000\n",
        report: "",
    },
];

/// Words that ask for nothing, and inputs that are refused.
pub static REFUSED: [Row; 5] = [
    Row {
        image: LOST_UPDATE,
        words: "first",
        status: 1,
        given: "",
        report: "rtr: usage\n",
    },
    Row {
        image: LOST_UPDATE,
        words: "first --never [80]=1 --cores 2 --words 32",
        status: 1,
        given: "",
        report: "rtr: usage\n",
    },
    Row {
        image: LOST_UPDATE,
        words: "first --runs 5..4 --expect [40]=2 --cores 2 --words 32",
        status: 1,
        given: "",
        report: "rtr: usage\n",
    },
    Row {
        image: LOST_UPDATE,
        words: "first --expect [0]=2 --cores 2 --words 4 --elf",
        status: 11,
        given: "",
        report: "rtr: not an ELF file\n",
    },
    Row {
        image: STORE_BUFFERING,
        words: "words --turns - --words 4",
        status: 2,
        given: "",
        report: "rtr: input too large\n",
    },
];
