//! Recordings of cores with store buffers: each row, bytes that are cut and changed, and streams that fail.

use crate::buffer_tables::{CUT, DAMAGED, Damage, buffers};
use crate::calls::{Answer, Streams, ask, ask_over, cut_names, gives, sink, source};
use crate::table_calls::{Form, named};
use replay_threads::OpenGate;
use std::alloc::{AllocError, Global};
use std::process::Abort;
use std::sync::Wait;
use std::test::Fail;
use std::thread::Threads;

/// The recording of which both loads are logged, and which no edge orders.
fn buffered(alloc: Global) -> Result<Vec<u8>, Fail> {
    named(alloc, buffers(), "BUFFERED", Form::Digits)
}

// A recording that is cut, at each byte.
#[test]
fn a_cut_of_a_recording_of_buffers_names_its_part(rt: HostRuntime) -> Result<(), Fail> {
    for (len, part) in CUT.iter().enumerate() {
        let whole = buffered(rt.alloc())?;
        cut_names(&rt, rt.alloc(), "tsoreplay --loads", whole, len, *part)?;
    }
    Ok(())
}

/// What a command for cores with store buffers makes, with sixteen of them, of a generated mix.
fn of_sixteen(
    rt: &(impl Threads + Wait + Sync),
    alloc: Global,
    words: &str,
) -> Result<Answer, AllocError> {
    let image = ask(rt, alloc, "gen --shape mix --number 3", Vec::new(alloc))?.output;
    let words = format!(in alloc; "{words} --cores 16 --limit 1000 --seed 5")?;
    ask(rt, alloc, &words, image)
}

// Sixteen cores are recorded, and a replay of the recording prints what the run prints.
#[test]
fn sixteen_cores_with_buffers_are_recorded(rt: HostRuntime) -> Result<(), Fail> {
    let alloc = rt.alloc();
    let run = of_sixteen(&rt, alloc, "tsorun --loads")?;
    let recorded = of_sixteen(&rt, alloc, "tsorecord")?;
    assert!(rt; (run.status, recorded.status) == (0, 0));
    let text = run.output.as_slice();
    assert!(rt; text.starts_with(b"core 0 limit retired 1000 ".as_slice()));
    Ok(gives(&rt, alloc, "tsoreplay --loads", recorded.output, text)?)
}

/// The status and the line of the damage; none where the bytes are replayed.
fn wanted(alloc: Global, damage: &Damage) -> Result<(u8, String), AllocError> {
    Ok(match damage {
        Damage::Replays => (0, String::new(alloc)),
        Damage::Part(part) => (3, format!(in alloc; "rtr: bad input, part {part}\n")?),
        Damage::Stops(core, count) => {
            (5, format!(in alloc; "rtr: core {core} stops at {count}\n")?)
        }
    })
}

/// The recording with one byte changed.
fn damaged(alloc: Global, at: usize) -> Result<Vec<u8>, Fail> {
    let whole = buffered(alloc)?;
    let mut input = Vec::new(alloc);
    for (place, byte) in whole.iter().enumerate() {
        input.push(if place == at {
            byte.wrapping_add(1)
        } else {
            *byte
        })?;
    }
    Ok(input)
}

/// Replays the recording with one byte changed, and compares how that ends. Nothing is given where it is refused.
fn is_damaged(
    rt: &(impl Abort + Threads + Wait + Sync),
    alloc: Global,
    at: usize,
    damage: &Damage,
) -> Result<(), Fail> {
    let (status, report) = wanted(alloc, damage)?;
    let answer = ask(rt, alloc, "tsoreplay", damaged(alloc, at)?)?;
    assert!(rt;
        answer.status == status && answer.output.is_empty() == (status > 0),
        "{at}"
    );
    assert!(rt; answer.report.as_slice() == report.as_bytes(), "{at}");
    Ok(())
}

#[test]
fn each_byte_of_a_recording_of_buffers_is_changed(rt: HostRuntime) -> Result<(), Fail> {
    for (at, damage) in DAMAGED.iter().enumerate() {
        is_damaged(&rt, rt.alloc(), at, damage)?;
    }
    Ok(())
}

/// The answer to `tsoreplay` of a recording, where these calls of the input and of the output fail (0 for none), and
/// no call moves more than so many bytes.
fn failing(
    rt: &(impl Threads + Wait + Sync),
    alloc: Global,
    input: Vec<u8>,
    fails: (u64, u64),
    most: usize,
) -> Result<Answer, AllocError> {
    let mut streams = Streams {
        input: source(alloc, input, fails.0, most)?,
        output: sink(alloc, 99, fails.1, most)?,
        report: sink(alloc, 99, 0, 99)?,
    };
    ask_over(rt, alloc, "tsoreplay", &mut streams, &OpenGate)
}

// The recording has 47 bytes, so that its source is asked six times at least: five times for bytes, and once for its
// end.
#[test]
fn a_recording_of_buffers_cannot_be_read(rt: HostRuntime) -> Result<(), Fail> {
    let alloc = rt.alloc();
    for call in 1..7 {
        let answer = failing(&rt, alloc, buffered(alloc)?, (call, 0), 10)?;
        assert!(rt; (answer.status, answer.output.len()) == (8, 0));
        assert!(rt; answer.report.as_slice() == b"rtr: read fault\n".as_slice());
    }
    Ok(())
}

/// The answer to `tsoreplay` of the recording of one ECALL, where this call of the output fails, and each takes a byte.
fn unwritten(rt: &(impl Threads + Wait + Sync), alloc: Global, call: u64) -> Result<Answer, Fail> {
    let recording = named(alloc, buffers(), "ONE_CALL", Form::Digits)?;
    Ok(failing(rt, alloc, recording, (0, call), 1)?)
}

// The text is given byte by byte, and what was given before the call that fails is its front.
#[test]
fn the_text_of_a_replay_of_buffers_cannot_be_written(rt: HostRuntime) -> Result<(), Fail> {
    let alloc = rt.alloc();
    let text = named(alloc, buffers(), "ONE_CALL_TEXT", Form::Lines)?;
    for given in 0..text.len() {
        let answer = unwritten(&rt, alloc, given as u64 + 1)?;
        assert!(rt; answer.status == 9 && answer.output.as_slice() == &text[..given]);
        assert!(rt; answer.report.as_slice() == b"rtr: write fault\n".as_slice());
    }
    let answer = unwritten(&rt, alloc, 0)?;
    assert!(rt; answer.status == 0 && answer.output.as_slice() == text.as_slice());
    Ok(())
}
