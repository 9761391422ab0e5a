//! How answers are spelled.
use gdb_packets::{Reply, Signal, Stop, Watch, Why, spell};
use rtr_types::Items;
use std::alloc::{AllocError, Global};
use std::test::Fail;

/// A stop, and its text.
struct Row {
    signal: Signal,
    core: u8,
    why: Why,
    text: &'static str,
}

macro_rules! stop {
    ($signal:ident, $core:literal, $why:expr => $text:literal) => {
        Row { signal: Signal::$signal, core: $core, why: $why, text: $text }
    };
}

static STOPS: [Row; 10] = [
    stop!(Trap, 0, Why::Nothing => "T05thread:1;"),
    stop!(Trap, 1, Why::Breakpoint => "T05thread:2;swbreak:;"),
    stop!(Trap, 0, Why::Watched(Watch::Write, 0x1098) => "T05thread:1;watch:1098;"),
    stop!(Trap, 0, Why::Watched(Watch::Read, 0x10f0) => "T05thread:1;rwatch:10f0;"),
    stop!(Trap, 1, Why::Watched(Watch::Access, 0x10f0) => "T05thread:2;awatch:10f0;"),
    stop!(Trap, 1, Why::End => "T05thread:2;replaylog:end;"),
    stop!(Trap, 0, Why::Begin => "T05thread:1;replaylog:begin;"),
    stop!(Segment, 1, Why::Nothing => "T0bthread:2;"),
    stop!(Misaligned, 15, Why::Nothing => "T0athread:10;"),
    stop!(Interrupt, 9, Why::Nothing => "T02thread:a;"),
];

/// Whether the answer is spelled so.
fn is_spelled(alloc: Global, reply: Reply, text: &str) -> Result<bool, AllocError> {
    Ok(spell(alloc, &reply)?.as_slice() == text.as_bytes())
}

/// The bytes as a list.
fn list(alloc: Global, bytes: &[u8]) -> Result<Items<u8>, AllocError> {
    let mut all = Items::new(alloc);
    for b in bytes {
        all.push(*b)?;
    }
    Ok(all)
}

#[test]
fn stops_say_the_signal_the_thread_and_why(rt: HostRuntime) -> Result<(), Fail> {
    for row in &STOPS {
        let stop = Stop {
            signal: row.signal,
            core: row.core,
            why: row.why,
        };
        assert!(rt;
            is_spelled(rt.alloc(), Reply::Stopped(stop), row.text)?,
            "{}",
            row.text
        );
    }
    Ok(())
}

#[test]
fn short_answers_are_words(rt: HostRuntime) -> Result<(), Fail> {
    assert!(rt; is_spelled(rt.alloc(), Reply::Unknown, "")?);
    assert!(rt; is_spelled(rt.alloc(), Reply::Done, "OK")?);
    assert!(rt; is_spelled(rt.alloc(), Reply::Refused, "E01")?);
    assert!(rt; is_spelled(rt.alloc(), Reply::Absent, "E00")?);
    assert!(rt; is_spelled(rt.alloc(), Reply::ResumeKinds, "vCont;c;C;s;S")?);
    assert!(rt; is_spelled(rt.alloc(), Reply::Attached, "1")?);
    Ok(())
}

#[test]
fn threads_are_counted_from_one(rt: HostRuntime) -> Result<(), Fail> {
    assert!(rt; is_spelled(rt.alloc(), Reply::ToldThread(0), "QC1")?);
    assert!(rt; is_spelled(rt.alloc(), Reply::ThreadsFirst(1), "m1")?);
    let eleven = "m1,2,3,4,5,6,7,8,9,a,b";
    assert!(rt; is_spelled(rt.alloc(), Reply::ThreadsFirst(11), eleven)?);
    assert!(rt; is_spelled(rt.alloc(), Reply::ThreadsRest, "l")?);
    Ok(())
}

#[test]
fn bytes_and_texts_are_digits(rt: HostRuntime) -> Result<(), Fail> {
    let word = list(rt.alloc(), &[0x13, 0x11, 0xa5, 0x00])?;
    assert!(rt; is_spelled(rt.alloc(), Reply::Bytes(word), "1311a500")?);
    let cut = list(rt.alloc(), b"cut\n")?;
    assert!(rt; is_spelled(rt.alloc(), Reply::Output(cut), "O6375740a")?);
    Ok(())
}

#[test]
fn documents_come_in_parts(rt: HostRuntime) -> Result<(), Fail> {
    let front = list(rt.alloc(), b"<thr")?;
    assert!(rt; is_spelled(rt.alloc(), Reply::Part(front), "m<thr")?);
    let rest = list(rt.alloc(), b"eads>")?;
    assert!(rt; is_spelled(rt.alloc(), Reply::LastPart(rest), "leads>")?);
    Ok(())
}
