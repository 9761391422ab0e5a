//! Lines of words that mean nothing, and what is told of them.
use command_line::usage_told;
use progress_line::second_line;
use row_texts::words;
use std::test::Fail;
use tool_words::fault;

/// A line of words, the place of the one at fault, and how what is told of it begins.
struct Row {
    line: &'static str,
    place: usize,
    told: &'static str,
}

/// A row.
macro_rules! told {
    ($line:literal, $place:literal, $told:literal) => {
        Row {
            line: $line,
            place: $place,
            told: $told,
        }
    };
}

/// The rows.
static ROWS: [Row; 16] = [
    told!("", 0, "rtr: no command is given\nrtr record ["),
    told!("recrod", 0, "rtr: recrod: no such command\nrtr record ["),
    told!("--help", 0, "rtr: --help: no such command\nrtr record ["),
    told!(
        "print --log reduced",
        1,
        "rtr: --log: the command has no such option\nrtr print\n"
    ),
    told!(
        "run --cores 2 --cores",
        3,
        "rtr: --cores: --cores is set twice\nrtr run ["
    ),
    told!(
        "run --loads=1",
        1,
        "rtr: --loads=1: --loads takes no value\nrtr run ["
    ),
    told!(
        "record --cores 0",
        2,
        "rtr: 0: --cores takes 1 to 16\nrtr record ["
    ),
    told!(
        "record --cores=17 --limit",
        1,
        "rtr: --cores=17: --cores takes 1 to 16\nrtr record ["
    ),
    told!(
        "record --words 30",
        2,
        "rtr: 30: --words takes a multiple of 4 from 4 to 262144\nrtr record ["
    ),
    told!(
        "replay --threads two",
        2,
        "rtr: two: --threads takes a number\nrtr replay ["
    ),
    told!(
        "replay --log reduce",
        2,
        "rtr: reduce: --log takes reduced or regulated\nrtr replay ["
    ),
    told!(
        "record --limit 1000000 --seed 1 --cores 5 --words 4",
        6,
        "rtr: 5: the cores times the limit are more than 4000000\nrtr record ["
    ),
    told!(
        "gen --shape lock --number 0",
        4,
        "rtr: 0: the shape has no image of the number\nrtr gen --shape mix|lock --number N\n"
    ),
    told!(
        "gen --shape mix",
        3,
        "rtr: --number is missing\nrtr gen --shape mix|lock --number N\n"
    ),
    told!(
        "at --core 1 --count",
        4,
        "rtr: --count lacks its value\nrtr at --core N --count N ["
    ),
    told!(
        "at",
        1,
        "rtr: --core is missing\nrtr at --core N --count N ["
    ),
];

#[test]
fn the_word_at_fault_is_told(rt: HostRuntime) -> Result<(), Fail> {
    for row in &ROWS {
        let words = words(rt.alloc(), row.line)?;
        let fault = fault(words.as_slice()).ok_or("a command")?;
        assert!(rt; fault.place() == row.place, "{}", row.line);
        let told = usage_told(rt.alloc(), words.as_slice())?.ok_or("a command")?;
        assert!(rt; told.as_str().starts_with(row.told), "{}", row.line);
    }
    Ok(())
}

#[test]
fn the_seconds_are_told_on_a_terminal_alone(rt: HostRuntime) -> Result<(), Fail> {
    let told = second_line(rt.alloc(), true, 12)?.ok_or("nothing")?;
    assert!(rt; told.as_str() == "rtr: 12 s\r");
    let elsewhere = second_line(rt.alloc(), false, 12)?;
    assert!(rt; elsewhere.is_none());
    Ok(())
}
