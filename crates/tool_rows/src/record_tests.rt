//! Recordings of runs: what is printed of each, in either version, what it replays, also by workers, and what it is
//! certified and thinned by.

use crate::calls::{ask, gives};
use crate::record_tables::recordings;
use crate::table_calls::{Call, call_of, calls};
use crate::worker_tests::workers_agree;
use log_codec::{fits_old, read, spell_v1};
use row_texts::is_piece;
use std::alloc::{AllocError, Global};
use std::process::Abort;
use std::sync::Wait;
use std::test::Fail;
use std::thread::Threads;

/// Records the run, and prints the recording.
fn is_recorded_and_printed(
    rt: &(impl Abort + Threads + Wait + Sync),
    alloc: Global,
    call: &Call,
) -> Result<(), AllocError> {
    assert!(rt; call.is_plain);
    let recording = call.output.as_slice();
    gives(rt, alloc, call.words, call.input.clone()?, recording)?;
    gives(
        rt,
        alloc,
        "print",
        call.output.clone()?,
        call.text.as_slice(),
    )
}

/// The spelling of the recording in version 1, where it is within the limits of that version.
fn oldest_of(alloc: Global, newest: &[u8]) -> Result<Option<Vec<u8>>, Fail> {
    let recording = read(alloc, newest)?;
    if fits_old(&recording.params) {
        Ok(Some(spell_v1(alloc, &recording)?))
    } else {
        Ok(None)
    }
}

/// If the recording has a spelling in version 1, prints that, and migrates it to the one that was recorded.
fn is_the_same_in_both(
    rt: &(impl Abort + Threads + Wait + Sync),
    alloc: Global,
    call: &Call,
) -> Result<(), Fail> {
    if let Some(oldest) = oldest_of(alloc, call.output.as_slice())? {
        gives(rt, alloc, "print", oldest.clone()?, call.text.as_slice())?;
        gives(rt, alloc, "migrate", oldest, call.output.as_slice())?;
    }
    Ok(())
}

/// Replays the recording by either log, and compares the text with that of the run, loads included.
fn replays_its_run(
    rt: &(impl Abort + Threads + Wait + Sync),
    alloc: Global,
    call: &Call,
) -> Result<(), AllocError> {
    let options = call.words.strip_prefix("record").unwrap_or("");
    let words = format!(in alloc; "run{options} --loads")?;
    let run = ask(rt, alloc, &words, call.input.clone()?)?.output;
    for replays in ["replay --loads", "replay --log regulated --loads"] {
        gives(rt, alloc, replays, call.output.clone()?, run.as_slice())?;
    }
    Ok(())
}

/// Makes of the recording what one command makes, and hands it to another, which is to accept it.
fn is_accepted(
    rt: &(impl Abort + Threads + Wait + Sync),
    alloc: Global,
    call: &Call,
    makes: &str,
    checks: &str,
) -> Result<(), AllocError> {
    let made = ask(rt, alloc, makes, call.output.clone()?)?.output;
    let check = ask(rt, alloc, checks, made)?;
    assert!(rt; check.status == 0 && check.report.is_empty(), "{checks}");
    Ok(())
}

/// Thins the recording, compares a replay by what is left with one by the reduced log, and checks the thinning.
fn is_thinned(
    rt: &(impl Abort + Threads + Wait + Sync),
    alloc: Global,
    call: &Call,
) -> Result<(), AllocError> {
    let run = ask(rt, alloc, "replay --loads", call.output.clone()?)?.output;
    let thinned = ask(rt, alloc, "thin", call.output.clone()?)?.output;
    let words = "replay --log regulated --loads";
    gives(rt, alloc, words, thinned, run.as_slice())?;
    is_accepted(rt, alloc, call, "thin --certify", "checkthin")
}

/// What becomes of the recording of a block. Its reduced log is least, so that it has a certificate.
fn is_right(
    rt: &(impl Abort + Threads + Wait + Sync),
    alloc: Global,
    block: &str,
) -> Result<(), Fail> {
    let call = call_of(alloc, recordings(), block)?;
    is_recorded_and_printed(rt, alloc, &call)?;
    is_the_same_in_both(rt, alloc, &call)?;
    replays_its_run(rt, alloc, &call)?;
    is_accepted(rt, alloc, &call, "certify", "check")?;
    is_thinned(rt, alloc, &call)?;
    assert!(rt; workers_agree(rt, alloc, call.output.clone()?)?, "{block}");
    Ok(())
}

#[test]
fn each_run_is_recorded_and_its_recording_replayed(rt: HostRuntime) -> Result<(), Fail> {
    assert_eq!(rt; calls(recordings()), 18);
    for block in recordings().split("\n\n") {
        if !is_piece(block) {
            is_right(&rt, rt.alloc(), block)?;
        }
    }
    Ok(())
}
