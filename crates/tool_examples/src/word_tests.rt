//! Lines of words, and what they mean.
use row_texts::words;
use rtr_types::{Instr, Params, Which};
use std::alloc::{AllocError, Global};
use std::test::Fail;
use tool_words::{Command, RunWords, meaning};
use trace_gen::Shape;

/// What the words of a line mean.
fn meaning_of(alloc: Global, line: &str) -> Result<Option<Command>, AllocError> {
    let words = words(alloc, line)?;
    meaning(alloc, words.as_slice())
}

/// Each row's line means what the row says.
macro_rules! each_means {
    ($rt:ident, $rows:ident by $is_meant:ident) => {
        for row in &$rows {
            let command = meaning_of($rt.alloc(), row.line)?;
            assert!($rt; $is_meant(command, row), "{}", row.line);
        }
    };
}

/// What is done with a run, of plain cores or of ones with store buffers.
enum Verb {
    Run,
    Record,
    TsoRun,
    TsoRecord,
}

/// A line of words and the run that it means.
struct Row {
    line: &'static str,
    verb: Verb,
    cores: u8,
    limit: u32,
    words: u32,
    choices: &'static [u8],
    seed: u64,
    loads: bool,
    elf: bool,
}

/// A run whose words give nothing else.
const PLAIN: Row = Row {
    line: "",
    verb: Verb::Run,
    cores: 1,
    limit: 10_000,
    words: 16_384,
    choices: &[],
    seed: 0,
    loads: false,
    elf: false,
};

/// A line, and what its words give.
macro_rules! run {
    ($line:literal => $($field:ident: $value:expr),*) => {
        Row { line: $line, $($field: $value,)* ..PLAIN }
    };
}

static ROWS: [Row; 15] = [
    run!("run" =>),
    run!("run --loads --words 32" => words: 32, loads: true),
    run!("run --cores 16 --limit=1 --loads" => cores: 16, limit: 1, loads: true),
    run!("run --words=262144 --choices 00ff1a --limit 1000000" =>
        limit: 1_000_000, words: 262_144, choices: &[0, 255, 26]),
    // Four million instructions together.
    run!("run --limit 250000 --cores 16" => cores: 16, limit: 250_000),
    run!("run --cores=4 --limit=1000000" => cores: 4, limit: 1_000_000),
    run!("run --choices=07 --seed 18446744073709551615 --cores=2" =>
        cores: 2, choices: &[7], seed: 18_446_744_073_709_551_615),
    run!("run --elf --loads" => loads: true, elf: true),
    run!("run --words 32 --choices 07 --elf" => words: 32, choices: &[7], elf: true),
    run!("record --elf --words 32 --choices=07" => verb: Verb::Record, words: 32, choices: &[7], elf: true),
    run!("tsorun" => verb: Verb::TsoRun),
    run!("tsorun --cores 2 --words=32 --choices 0000 --loads" =>
        verb: Verb::TsoRun, cores: 2, words: 32, choices: &[0, 0], loads: true),
    run!("tsorun --seed=9 --limit 250000 --cores=16" => verb: Verb::TsoRun, cores: 16, limit: 250_000, seed: 9),
    run!("tsorecord" => verb: Verb::TsoRecord),
    run!("tsorecord --choices=07ff --words 262144 --seed 18446744073709551615 --cores 2" =>
        verb: Verb::TsoRecord, cores: 2, words: 262_144, choices: &[7, 255], seed: 18_446_744_073_709_551_615),
];

/// Whether the words of a run are those of the row.
fn is_of_row(run: &RunWords, row: &Row) -> bool {
    let wanted = Params {
        cores: row.cores,
        limit: row.limit,
        words: row.words,
    };
    run.params == wanted
        && run.choices.as_slice() == row.choices
        && run.seed == row.seed
        && run.elf == row.elf
}

/// Whether the command does with the run of the row what the row says.
fn is_run(command: Option<Command>, row: &Row) -> bool {
    match (command, &row.verb) {
        (Some(Command::Run { run, loads }), Verb::Run) => is_of_row(&run, row)
            && loads == row.loads,
        (Some(Command::TsoRun { run, loads }), Verb::TsoRun) => {
            is_of_row(&run, row) && loads == row.loads
        }
        (Some(Command::Record(run)), Verb::Record) => is_of_row(&run, row),
        (Some(Command::TsoRecord(run)), Verb::TsoRecord) => is_of_row(&run, row),
        _ => false,
    }
}

#[test]
fn words_that_mean_a_run_or_its_record(rt: HostRuntime) -> Result<(), Fail> {
    each_means!(rt, ROWS by is_run);
    Ok(())
}

/// A line of words and the replay that it means.
struct ReplayRow {
    line: &'static str,
    which: Which,
    threads: Option<u32>,
    loads: bool,
}

macro_rules! replay {
    ($line:literal => $which:ident, $threads:expr, $loads:literal) => {
        ReplayRow { line: $line, which: Which::$which, threads: $threads, loads: $loads }
    };
}

static REPLAYS: [ReplayRow; 7] = [
    replay!("replay" => Reduced, None, false),
    replay!("replay --log regulated" => Regulated, None, false),
    replay!("replay --loads --log=reduced" => Reduced, None, true),
    replay!("replay --log=regulated --loads" => Regulated, None, true),
    replay!("replay --threads 1" => Reduced, Some(1), false),
    replay!("replay --threads=8 --log regulated" => Regulated, Some(8), false),
    replay!("replay --loads --threads 2" => Reduced, Some(2), true),
];

/// Whether the command is the replay of the row.
fn is_replay(command: Option<Command>, row: &ReplayRow) -> bool {
    matches!(command, Some(Command::Replay { which, threads, loads })
        if which == row.which && threads == row.threads && loads == row.loads)
}

#[test]
fn words_that_mean_a_replay(rt: HostRuntime) -> Result<(), Fail> {
    each_means!(rt, REPLAYS by is_replay);
    Ok(())
}

/// Lines that mean nothing, beside the empty one.
const FAULTY: &str = "\
records
--help
record --help
record --
record --loads
record --words 6
record --words 262148
record --words 0
record --limit 0
record --limit 1000001
record --cores 16 --limit 250001
record --limit=1000000 --cores=5
run --limit 307693 --loads --cores 13
record --limit 4294967297
record --limit 010
record --limit +1
record --limit
record --limit --words
record --limit=
record --limit=1 --limit=1
record --lim 1
run --loads --loads
run --loads=
run --loads 1
run --log reduced
print --limit 1
replay --log
replay --log Reduced
replay --log=reduced --log=reduced
replay --loads=
replay --limit 1
migrates
migrate --words 16
certifies
certify --limit 1
check --log reduced
run --cores 0
run --cores 17
run --choices 0
run --choices 0A
run --choices=
run --choices 00 --choices 00
run --seed 18446744073709551616
record --elf --elf
record --elf=
record --elf 1
print --elf
replay --elf
certify --elf
gen
gen --shape mix
gen --number 3
gen --shape lock --number 0
gen --shape lock --number 2048
gen --number 2048 --shape=lock
gen --shape Mix --number 1
gen --shape mix --number 18446744073709551616
gen --shape mix --number 007
gen --shape mix --number 1 --number 1
gen --shape mix --number 1 --cores 2
gen --shape mix --number 1 --elf
soak --shape lock
soak --shape lock --number 2048
soak --shape mix --number 1 --choices 00
soak --shape mix --number 1 --loads
soak --shape mix --number 1 --cores 16 --limit 250001
at
at --core 1
at --count 2
at --core 16 --count 2
at --core 1 --count 0
at --core 1 --count 1000001
at --core 01 --count 2
at --core 1 --core 1 --count 2
at --core 1 --count 2 --latest --latest
at --core 1 --count 2 --latest=
at --core 1 --count 2 --limit 3
at --core 1 --count 2 --log least
replay --latest
thin --certify --certify
thin --certify=
thin --certify 1
thin --log regulated
checkthin --certify
certify --certify
check thin
replay --threads
replay --threads 0
replay --threads 9
replay --threads=02
replay --threads 2 --threads 2
run --threads 2
at --core 0 --count 1 --threads 2
tso
tsorun --elf
tsorecord --elf
tsoreplays
tsoreplay --loads --loads
tsoreplay --loads=
tsoreplay --log reduced
tsoreplay --threads 2
tsoreplay --elf
tsoreplay --cores 2";

#[test]
fn words_that_mean_nothing(rt: HostRuntime) -> Result<(), Fail> {
    assert!(rt; meaning_of(rt.alloc(), "")?.is_none());
    assert_eq!(rt; FAULTY.split('\n').count(), 103);
    for line in FAULTY.split('\n') {
        assert!(rt; meaning_of(rt.alloc(), line)?.is_none(), "{line}");
    }
    Ok(())
}

/// A line of words and the image that it asks for.
struct ImageRow {
    line: &'static str,
    shape: Shape,
    number: u64,
}

macro_rules! image {
    ($line:literal => $shape:ident, $number:literal) => {
        ImageRow { line: $line, shape: Shape::$shape, number: $number }
    };
}

static IMAGES: [ImageRow; 4] = [
    image!("gen --shape lock --number 500" => Lock, 500),
    image!("gen --number=2047 --shape=lock" => Lock, 2047),
    image!("gen --shape mix --number 0" => Mix, 0),
    image!("gen --number 18446744073709551615 --shape mix" => Mix, 18_446_744_073_709_551_615),
];

/// Whether the command makes the row's image.
fn is_image(command: Option<Command>, row: &ImageRow) -> bool {
    matches!(command, Some(Command::Gen { shape, number })
        if shape == row.shape && number == row.number)
}

#[test]
fn words_that_mean_an_image(rt: HostRuntime) -> Result<(), Fail> {
    each_means!(rt, IMAGES by is_image);
    Ok(())
}

/// A line of words and the soak that it asks for.
struct SoakRow {
    line: &'static str,
    shape: Shape,
    number: u64,
    params: Params,
    seed: u64,
}

static SOAKS: [SoakRow; 2] = [
    SoakRow {
        line: "soak --shape lock --number 1 --words 4",
        shape: Shape::Lock,
        number: 1,
        params: Params {
            cores: 1,
            limit: 10_000,
            words: 4,
        },
        seed: 0,
    },
    SoakRow {
        line: "soak --limit=100000 --number 3 --seed 9 --shape mix --cores 8",
        shape: Shape::Mix,
        number: 3,
        params: Params {
            cores: 8,
            limit: 100_000,
            words: 16_384,
        },
        seed: 9,
    },
];

/// Whether the command is the soak of the row.
fn is_soak(command: Option<Command>, row: &SoakRow) -> bool {
    matches!(command, Some(Command::Soak { shape, number, params, seed })
        if shape == row.shape && number == row.number && params == row.params && seed == row.seed)
}

#[test]
fn words_that_mean_a_soak(rt: HostRuntime) -> Result<(), Fail> {
    each_means!(rt, SOAKS by is_soak);
    Ok(())
}

/// A line of words and the instruction that it names, with how it is asked for.
struct AtRow {
    line: &'static str,
    which: Which,
    at: Instr,
    latest: bool,
    loads: bool,
}

macro_rules! at {
    ($line:literal => $which:ident, $core:literal: $count:literal, $latest:literal, $loads:literal) => {
        AtRow {
            line: $line,
            which: Which::$which,
            at: Instr { core: $core, count: $count },
            latest: $latest,
            loads: $loads,
        }
    };
}

static INSTRUCTIONS: [AtRow; 4] = [
    at!("at --core 1 --count 2" => Reduced, 1: 2, false, false),
    at!("at --latest --count=1 --core=0" => Reduced, 0: 1, true, false),
    at!("at --core 15 --log regulated --count 1000000 --loads" => Regulated, 15: 1_000_000, false, true),
    at!("at --loads --core=3 --latest --count=7 --log=reduced" => Reduced, 3: 7, true, true),
];

/// Whether the command asks for the state at the row's instruction.
fn is_at(command: Option<Command>, row: &AtRow) -> bool {
    matches!(command, Some(Command::At { which, at, latest, loads })
        if which == row.which && at == row.at && latest == row.latest && loads == row.loads)
}

#[test]
fn words_that_mean_an_instruction(rt: HostRuntime) -> Result<(), Fail> {
    each_means!(rt, INSTRUCTIONS by is_at);
    Ok(())
}

/// A command without an option, or with one that is set or isn't.
#[derive(Clone, Copy, PartialEq, Eq)]
enum Short {
    Print,
    Migrate,
    Certify,
    Check,
    CheckThin,
    Thin { certify: bool },
    TsoReplay { loads: bool },
}

/// The command, if it is a short one.
fn short_of(command: Option<Command>) -> Option<Short> {
    match command? {
        Command::Print => Some(Short::Print),
        Command::Migrate => Some(Short::Migrate),
        Command::Certify => Some(Short::Certify),
        Command::Check => Some(Short::Check),
        Command::CheckThin => Some(Short::CheckThin),
        Command::Thin { certify } => Some(Short::Thin { certify }),
        Command::TsoReplay { loads } => Some(Short::TsoReplay { loads }),
        _ => None,
    }
}

/// A line of words and the short command that it means.
struct ShortRow {
    line: &'static str,
    short: Short,
}

macro_rules! short {
    ($line:literal => $short:expr) => {
        ShortRow { line: $line, short: $short }
    };
}

static SHORTS: [ShortRow; 9] = [
    short!("print" => Short::Print),
    short!("migrate" => Short::Migrate),
    short!("certify" => Short::Certify),
    short!("check" => Short::Check),
    short!("checkthin" => Short::CheckThin),
    short!("thin" => Short::Thin { certify: false }),
    short!("thin --certify" => Short::Thin { certify: true }),
    short!("tsoreplay" => Short::TsoReplay { loads: false }),
    short!("tsoreplay --loads" => Short::TsoReplay { loads: true }),
];

/// Whether the command is the short one of the row.
fn is_short(command: Option<Command>, row: &ShortRow) -> bool {
    short_of(command) == Some(row.short)
}

#[test]
fn words_of_short_commands(rt: HostRuntime) -> Result<(), Fail> {
    each_means!(rt, SHORTS by is_short);
    Ok(())
}
