//! Lines of words that ask for nothing, and what is told of them.
use hunt_texts::usage_told;
use hunt_words::fault;
use row_texts::words;
use std::test::Fail;

/// A line of words, the place of the one at fault, and how what is told of it begins.
struct Row {
    line: &'static str,
    place: usize,
    told: &'static str,
}

/// A row.
macro_rules! told {
    ($line:literal, $place:literal, $told:literal) => {
        Row {
            line: $line,
            place: $place,
            told: $told,
        }
    };
}

/// The rows.
static ROWS: [Row; 16] = [
    told!("", 0, "rtr: no command is given\nrtr_hunt first ["),
    told!("frist", 0, "rtr: frist: no such command\nrtr_hunt first ["),
    told!(
        "table --plain",
        1,
        "rtr: --plain: the command has no such option\nrtr_hunt table ["
    ),
    told!(
        "first --plain=1",
        1,
        "rtr: --plain=1: --plain takes no value\nrtr_hunt first ["
    ),
    told!(
        "first --cores 2 --cores",
        3,
        "rtr: --cores: --cores is set twice\nrtr_hunt first ["
    ),
    told!(
        "first --words 30",
        2,
        "rtr: 30: --words takes a multiple of 4 from 4 to 262144\nrtr_hunt first ["
    ),
    told!(
        "first --runs 5..4",
        2,
        "rtr: 5..4: --runs takes A..B, where A is at most B\nrtr_hunt first ["
    ),
    told!(
        "first --expect [41]=2",
        2,
        "rtr: [41]=2: --expect takes a claim as [40]=2,all:exit|0:x5<[44]\nrtr_hunt first ["
    ),
    told!(
        "first --elf --tso",
        2,
        "rtr: --tso: --elf and --tso don't go together\nrtr_hunt first ["
    ),
    told!(
        "words --run 1 --turns",
        3,
        "rtr: --turns: --run and --turns don't go together\nrtr_hunt words --run"
    ),
    told!(
        "first --cores 16 --limit 1000000",
        4,
        "rtr: 1000000: the cores times the limit are more than 4000000\nrtr_hunt first ["
    ),
    told!(
        "first --expect 1:x7=0 --cores 1",
        4,
        "rtr: 1: no machine with these options has each core and word that is named\nrtr_hunt first ["
    ),
    told!(
        "first --expect 1:x7=0",
        3,
        "rtr: a run has one core by default, and more are named: --cores is missing\nrtr_hunt first ["
    ),
    told!(
        "first --expect [10000]=0",
        3,
        "rtr: a word is named that there isn't by default: --words is missing\nrtr_hunt first ["
    ),
    told!(
        "small --run 0",
        3,
        "rtr: --expect or --never is missing\nrtr_hunt small --run"
    ),
    told!(
        "words --run",
        2,
        "rtr: --run lacks its value\nrtr_hunt words --run"
    ),
];

#[test]
fn the_word_at_fault_is_told(rt: HostRuntime) -> Result<(), Fail> {
    for row in &ROWS {
        let words = words(rt.alloc(), row.line)?;
        let fault = fault(rt.alloc(), words.as_slice())?.ok_or("a hunt")?;
        assert!(rt; fault.place() == row.place, "{}", row.line);
        let told = usage_told(rt.alloc(), words.as_slice())?.ok_or("a hunt")?;
        assert!(rt; told.as_str().starts_with(row.told), "{}", row.line);
    }
    Ok(())
}
