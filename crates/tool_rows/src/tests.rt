use crate::buffer_tables::buffers;
use crate::calls::{ask, asks, cut_names, gives, is_answered};
use crate::certificate_tables::CERTIFICATES;
use crate::cut_tables::STATES;
use crate::generated_tables::GENERATED;
use crate::lesson_tables::EXAMPLES;
use crate::lock::of_the_lock;
use crate::replay_tables::REPLAYS;
use crate::run_tables::{FAULTY, RUNS};
use crate::table_calls::{Form, call_of, calls, named};
use crate::tables::{CUTS, ROWS};
use crate::thin_tables::{LONG_VECTORS, THINNED};
use row_texts::{bytes, is_piece};
use std::alloc::{AllocError, Global};
use std::process::Abort;
use std::sync::Wait;
use std::test::Fail;
use std::thread::Threads;
use varint_core::put_u32;

/// Asks what a block of the table asks, with these words more, and compares the answer.
fn block_is_answered(
    rt: &(impl Abort + Threads + Wait + Sync),
    alloc: Global,
    table: &str,
    block: &str,
    more: &str,
) -> Result<(), AllocError> {
    let mut call = call_of(alloc, table, block)?;
    let asked = call.words;
    let words = format!(in alloc; "{asked}{more}")?;
    is_answered(rt, alloc, &words, &mut call)
}

/// The same of each call of the table, which has so many.
fn are_answered(
    rt: &(impl Abort + Threads + Wait + Sync),
    alloc: Global,
    table: &str,
    count: usize,
    more: &str,
) -> Result<(), Fail> {
    assert_eq!(rt; calls(table), count);
    for block in table.split("\n\n") {
        if !is_piece(block) {
            block_is_answered(rt, alloc, table, block, more)?;
        }
    }
    Ok(())
}

#[test]
fn each_call_is_answered(rt: HostRuntime) -> Result<(), Fail> {
    are_answered(&rt, rt.alloc(), ROWS, 59, "")?;
    are_answered(&rt, rt.alloc(), CERTIFICATES, 27, "")?;
    are_answered(&rt, rt.alloc(), STATES, 15, "")?;
    are_answered(&rt, rt.alloc(), GENERATED, 23, "")
}

#[test]
fn each_run_leaves_its_text(rt: HostRuntime) -> Result<(), Fail> {
    are_answered(&rt, rt.alloc(), RUNS, 19, "")?;
    are_answered(&rt, rt.alloc(), EXAMPLES, 54, "")?;
    are_answered(&rt, rt.alloc(), buffers(), 39, "")
}

#[test]
fn each_log_is_thinned_or_refused(rt: HostRuntime) -> Result<(), Fail> {
    are_answered(&rt, rt.alloc(), THINNED, 16, "")?;
    are_answered(&rt, rt.alloc(), LONG_VECTORS, 2, "")
}

#[test]
fn each_log_is_replayed_or_refused(rt: HostRuntime) -> Result<(), Fail> {
    for more in ["", " --threads 1", " --threads 2", " --threads 8"] {
        are_answered(&rt, rt.alloc(), REPLAYS, 19, more)?;
    }
    Ok(())
}

// Each of two cores takes the lock 500 times and adds 1 to the word that it guards, which no addition is lost of.
#[test]
fn a_lock_keeps_every_addition(rt: HostRuntime) -> Result<(), Fail> {
    let alloc = rt.alloc();
    let run = of_the_lock(&rt, alloc, "run", "")?;
    assert!(rt; run.ends_with(b"mem 00000130 000003e8\n".as_slice()));
    for words in ["replay", "replay --log regulated"] {
        let made = of_the_lock(&rt, alloc, "record", "")?;
        gives(&rt, alloc, words, made, run.as_slice())?;
    }
    Ok(())
}

// And a replay by the regulated log gives each load the run's value.
#[test]
fn a_lock_is_replayed_with_its_loads(rt: HostRuntime) -> Result<(), Fail> {
    let alloc = rt.alloc();
    let words = "replay --log regulated --loads";
    let run = of_the_lock(&rt, alloc, "run", " --loads")?;
    let made = of_the_lock(&rt, alloc, "record", "")?;
    Ok(gives(&rt, alloc, words, made, run.as_slice())?)
}

// A mix of four cores, each of which retires as many instructions as the program has: the soak of it comes to the
// same text each time.
#[test]
fn a_soak_of_the_mix_is_the_same_each_time(rt: HostRuntime) -> Result<(), Fail> {
    let alloc = rt.alloc();
    let words = "soak --shape mix --number 3 --cores 4 --limit 100000";
    let first = ask(&rt, alloc, words, Vec::new(alloc))?.output;
    let wanted = b"shape mix number 3 cores 4\nretired 103208\n".as_slice();
    assert!(rt; first.starts_with(wanted));
    Ok(gives(&rt, alloc, words, Vec::new(alloc), first.as_slice())?)
}

#[test]
fn a_cut_names_the_part_that_it_cuts(rt: HostRuntime) -> Result<(), Fail> {
    let alloc = rt.alloc();
    for cuts in &CUTS {
        for (len, part) in cuts.parts.iter().enumerate() {
            let whole = bytes(alloc, cuts.recording)?;
            cut_names(&rt, alloc, "print", whole, len, *part)?;
        }
        let whole = ask(&rt, alloc, "print", bytes(alloc, cuts.recording)?)?;
        assert_eq!(rt; whole.status, 0);
    }
    Ok(())
}

#[test]
fn words_that_mean_nothing_are_refused(rt: HostRuntime) -> Result<(), Fail> {
    let alloc = rt.alloc();
    for words in &FAULTY {
        let image = bytes(alloc, "73000000")?;
        asks(&rt, alloc, words, image, 1, b"".as_slice(), "rtr: usage\n")?;
    }
    Ok(())
}

// A replay by the thinned log says what one by the log before says.
#[test]
fn a_thinned_log_replays_the_same(rt: HostRuntime) -> Result<(), Fail> {
    let alloc = rt.alloc();
    let words = "replay --log regulated --loads";
    let before = ask(
        &rt,
        alloc,
        words,
        named(alloc, THINNED, "MORE", Form::Digits)?,
    )?
    .output;
    let thinned = named(alloc, THINNED, "FEWER", Form::Digits)?;
    Ok(gives(&rt, alloc, words, thinned, before.as_slice())?)
}

/// A recording of so many vectors of one edge each, from an instruction of core 0 to the one of core 1 with its count:
/// none of them is implied by the others.
fn many_vectors(alloc: Global, vectors: u32) -> Result<Vec<u8>, Fail> {
    let mut recording = named(alloc, LONG_VECTORS, "ENDLESS_JUMPS", Form::Digits)?;
    put_u32(&mut recording, vectors)?;
    for count in 1..=vectors {
        put_u32(&mut recording, 1)?;
        put_u32(&mut recording, count)?;
        put_u32(&mut recording, count)?;
    }
    put_u32(&mut recording, 0)?;
    Ok(recording)
}

#[test]
fn each_of_4096_vectors_is_tried(rt: HostRuntime) -> Result<(), Fail> {
    let alloc = rt.alloc();
    let wanted = many_vectors(alloc, 4_096)?;
    let input = many_vectors(alloc, 4_096)?;
    Ok(gives(&rt, alloc, "thin", input, wanted.as_slice())?)
}

#[test]
fn one_vector_more_is_too_many(rt: HostRuntime) -> Result<(), Fail> {
    let alloc = rt.alloc();
    let report = "rtr: 4097 vectors with 4097 edges are too many\n";
    let input = many_vectors(alloc, 4_097)?;
    Ok(asks(&rt, alloc, "thin", input, 13, b"".as_slice(), report)?)
}
