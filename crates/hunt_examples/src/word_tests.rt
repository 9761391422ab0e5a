//! Words that ask for a hunt, and words that don't.
use end_claims::Demand;
use hunt_words::{Hunt, RunName, Runs, Setup, meaning};
use row_texts::words;
use std::alloc::{AllocError, Global};
use std::test::Fail;
use turn_lists::spelled_turns;

/// What the words of a line ask for, told in a row: the verb, cores, limit and words, the flags, the runs, and what is
/// demanded.
fn told(alloc: Global, line: &str) -> Result<String, AllocError> {
    let words = words(alloc, line)?;
    match meaning(alloc, words.as_slice())? {
        Some(hunt) => told_of(alloc, &hunt),
        None => String::from_str(alloc, "nothing"),
    }
}

fn told_of(alloc: Global, hunt: &Hunt) -> Result<String, AllocError> {
    let mut text = String::new(alloc);
    match hunt {
        Hunt::First {
            setup,
            runs,
            demand,
            plain,
        } => {
            text.push_str("first")?;
            put_setup(&mut text, setup)?;
            put_runs(&mut text, runs)?;
            put_demand(&mut text, demand)?;
            text.push_str(if *plain { " plain" } else { "" })?;
        }
        Hunt::Table {
            setup,
            runs,
            places,
            demand,
        } => {
            text.push_str("table")?;
            put_setup(&mut text, setup)?;
            put_runs(&mut text, runs)?;
            let many = places.len();
            write!(text, " places {many}")?;
            if let Some(demand) = demand {
                put_demand(&mut text, demand)?;
            }
        }
        Hunt::Small { setup, run, demand } => {
            text.push_str("small")?;
            put_setup(&mut text, setup)?;
            put_run(alloc, &mut text, run)?;
            put_demand(&mut text, demand)?;
        }
        Hunt::Words { setup, run } => {
            text.push_str("words")?;
            put_setup(&mut text, setup)?;
            put_run(alloc, &mut text, run)?;
        }
        Hunt::Record { setup, run } => {
            text.push_str("record")?;
            put_setup(&mut text, setup)?;
            put_run(alloc, &mut text, run)?;
        }
    }
    Ok(text)
}

fn put_setup(text: &mut String, setup: &Setup) -> Result<(), AllocError> {
    let cores = setup.params.cores;
    let limit = setup.params.limit;
    let words = setup.params.words;
    write!(text, " {cores} {limit} {words}")?;
    text.push_str(if setup.elf { " elf" } else { "" })?;
    text.push_str(if setup.tso { " tso" } else { "" })
}

fn put_runs(text: &mut String, runs: &Runs) -> Result<(), AllocError> {
    let by = runs.by;
    let first = runs.first;
    let last = runs.last;
    write!(text, " {by:?} {first}..{last}")?;
    match runs.threads {
        Some(threads) => write!(text, " by {threads}"),
        None => Ok(()),
    }
}

fn put_run(alloc: Global, text: &mut String, run: &RunName) -> Result<(), AllocError> {
    match run {
        RunName::Numbered { by, number } => write!(text, " {by:?} {number}"),
        RunName::Turns(turns) => {
            let spelled = spelled_turns(alloc, turns.as_slice())?;
            text.push_str(" ")?;
            text.push_str(spelled.as_str())
        }
    }
}

fn put_demand(text: &mut String, demand: &Demand) -> Result<(), AllocError> {
    match demand {
        Demand::Expect(claim) => {
            let many = claim.len();
            write!(text, " expect {many}")
        }
        Demand::Never(claim) => {
            let many = claim.len();
            write!(text, " never {many}")
        }
        Demand::Same(places) => {
            let many = places.len();
            write!(text, " same {many}")
        }
    }
}

/// A line, and what it asks for.
struct Asked {
    line: &'static str,
    told: &'static str,
}

static ASKED: [Asked; 14] = [
    Asked {
        line: "first --expect [40]=2",
        told: "first 1 10000 16384 All 0..9999 expect 1",
    },
    Asked {
        line: "first --elf --cores 2 --runs 7000..7999 --by pct3 --threads 64 --never [40]=2|0:exit,1:x7<0 --plain",
        told: "first 2 10000 16384 elf Ranked(3) 7000..7999 by 64 never 2 plain",
    },
    Asked {
        line: "first --same=stops --by=few --cores=3 --tso",
        told: "first 3 10000 16384 tso Few 0..9999 same 3",
    },
    Asked {
        line: "first --runs 0..18446744073709551614 --expect all:exit",
        told: "first 1 10000 16384 All 0..18446744073709551614 expect 1",
    },
    Asked {
        line: "table --never 0:x28=0,1:x28=0 --tso --cores 2 --words 64",
        told: "table 2 10000 64 tso Mixed 0..9999 places 2 never 1",
    },
    Asked {
        line: "table --see [40],0:x1,stops,[40] --cores 2 --by seed",
        told: "table 2 10000 16384 Seed 0..9999 places 4",
    },
    Asked {
        line: "table --see [40] --expect 0:x1=1",
        told: "table 1 10000 16384 Mixed 0..9999 places 1 expect 1",
    },
    Asked {
        line: "small --run 0 --by seed --expect [40]=2",
        told: "small 1 10000 16384 Seed 0 expect 1",
    },
    Asked {
        line: "small --turns 1*1,w0*2 --never [0]=0x73 --cores 2 --limit 500",
        told: "small 2 500 16384 1*1,w0*2 never 1",
    },
    Asked {
        line: "words --run 17",
        told: "words 1 10000 16384 All 17",
    },
    Asked {
        line: "words --turns -",
        told: "words 1 10000 16384 -",
    },
    Asked {
        line: "words --run=18446744073709551615 --by walk --words 32",
        told: "words 1 10000 32 Walk 18446744073709551615",
    },
    Asked {
        line: "record --by pct9 --run 3 --cores 16 --limit 250000",
        told: "record 16 250000 16384 Ranked(9) 3",
    },
    Asked {
        line: "record --turns 0*4000000 --elf",
        told: "record 1 10000 16384 elf 0*4000000",
    },
];

#[test]
fn words_that_ask(rt: HostRuntime) -> Result<(), Fail> {
    for row in &ASKED {
        let told = told(rt.alloc(), row.line)?;
        assert!(rt; told.as_str() == row.told);
    }
    Ok(())
}

static IDLE: [&str; 50] = [
    "",
    "hunt",
    "First --expect [40]=2",
    "first",
    "table",
    "small --run 1",
    "small --expect [40]=2",
    "words",
    "record",
    "first --expect",
    "first --expect [40]=2 --expect [40]=2",
    "first --expect [40]=2 --never [40]=2",
    "first --expect [40]=2 --same [40]",
    "first --expect [80]=1 --words 32",
    "first --expect [42]=1",
    "first --expect 1:x1=1",
    "first --same 1:x1",
    "first --same 0:x32",
    "first --expect [40]=2 --runs 5..4",
    "first --expect [40]=2 --runs 5",
    "first --expect [40]=2 --runs 5..",
    "first --expect [40]=2 --runs 0...4",
    "first --expect [40]=2 --runs 05..7",
    "first --expect [40]=2 --runs 0..18446744073709551615",
    "first --expect [40]=2 --by pct0",
    "first --expect [40]=2 --by pct10",
    "first --expect [40]=2 --by pct",
    "first --expect [40]=2 --by Seed",
    "first --expect [40]=2 --by pct01",
    "first --expect [40]=2 --threads 0",
    "first --expect [40]=2 --threads 65",
    "first --expect [40]=2 --cores 0",
    "first --expect [40]=2 --cores 17",
    "first --expect [40]=2 --cores 16 --limit 250001",
    "first --expect [40]=2 --words 33",
    "first --expect [40]=2 --elf --tso",
    "first --expect [40]=2 --elf=1",
    "first --expect [40]=2 --plain --plain",
    "first --expect [40]=2 --see [40]",
    "first --expect [40]=2 --run 1",
    "first --expect [40]=2 1",
    "table --see [40] --plain",
    "table --expect [40]=2 --never [40]=2 --see [40]",
    "table --same [40]",
    "small --run 1 --same [40]",
    "small --turns 0*1 --run 1 --expect [40]=2",
    "words --turns 0*1 --by few",
    "words --turns 16*1",
    "words --run 01",
    "words --run 1 --expect [40]=2",
];

#[test]
fn words_that_ask_for_nothing(rt: HostRuntime) -> Result<(), Fail> {
    for line in &IDLE {
        let told = told(rt.alloc(), line)?;
        assert!(rt; told.as_str() == "nothing");
    }
    Ok(())
}
