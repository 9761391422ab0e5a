//! Runs that are recorded, with recordings that were worked out by hand, and replayed. What found no memory is made
//! once more, so that each test passes too where one allocation fails, whichever it is.
ghost use Rattle.std.specs.Prelude.{◌≡◌, IfOk};
ghost use Rattle.tso_codec.specs.Validity.{IsTso};

use crate::litmus_tests::STORE_BUFFERING;
use image_mem::Image;
use replay_core::ReplayFault;
use rtr_types::Params;
use rv_core::{LoadNote, Outcome};
use schedule_pick::Schedule;
use std::alloc::{AllocError, Global};
use std::process::Abort;
use std::test::Fail;
use tso_codec::TsoRecording;
use tso_record::{TsoRecorded, tso_record, tso_record_image};
use tso_replay::tso_replay;

/// Two cores and 32 words.
const PARAMS: Params = Params {
    cores: 2,
    limit: 100,
    words: 32,
};

/// The bytes of the code, each word's lowest first.
fn bytes_of(alloc: Global) -> Result<Vec<u8>, AllocError> {
    let mut bytes = Vec::new(alloc);
    for word in &STORE_BUFFERING {
        bytes.extend_from_slice(&word.to_le_bytes())?;
    }
    Ok(bytes)
}

/// The image of the code.
fn image(alloc: Global) -> Result<Image, Fail>
    ensures { IfOk result (λ image. image.words ≡ 32) }
{
    let bytes = match bytes_of(alloc) {
        Ok(bytes) => bytes,
        Err(_) => bytes_of(alloc)?,
    };
    Ok(Image::flat(bytes, 32)?)
}

/// So many choices that are 0, and after them the generator's from this state on.
fn schedule(alloc: Global, zeros: usize, seed: u64) -> Result<Schedule, AllocError> {
    let choices = match vec![in alloc; 0u8; zeros] {
        Ok(choices) => choices,
        Err(_) => vec![in alloc; 0u8; zeros]?,
    };
    Ok(Schedule::new(choices, seed))
}

/// A run under this schedule, recorded.
fn recorded(alloc: Global, zeros: usize, seed: u64) -> Result<TsoRecorded, Fail>
    ensures { IfOk result (λ run. IsTso run.recording) }
{
    let (image, choices) = begun(alloc, zeros, seed)?;
    if let Ok(run) = tso_record(alloc, image, PARAMS, choices) {
        return Ok(run);
    }
    let (image, choices) = begun(alloc, zeros, seed)?;
    Ok(tso_record(alloc, image, PARAMS, choices)?)
}

/// The image, and a schedule.
fn begun(alloc: Global, zeros: usize, seed: u64) -> Result<(Image, Schedule), Fail>
    ensures { IfOk result (λ begun. begun.0.words ≡ 32) }
{
    let image = image(alloc)?;
    Ok((image, schedule(alloc, zeros, seed)?))
}

/// The recording alone, of a run by 30 choices that are 0.
fn recorded_alone(alloc: Global) -> Result<TsoRecording, Fail> {
    let (image, choices) = begun(alloc, 30, 0)?;
    if let Ok(recording) = tso_record_image(alloc, image, PARAMS, choices) {
        return Ok(recording);
    }
    let (image, choices) = begun(alloc, 30, 0)?;
    Ok(tso_record_image(alloc, image, PARAMS, choices)?)
}

/// What the recording's replay answers. It leaves the recording as it is.
fn replayed(alloc: Global, recording: &TsoRecording) -> Result<Outcome, ReplayFault>
    requires { IsTso recording.now }
{
    match tso_replay(alloc, recording) {
        Err(ReplayFault::OutOfMemory) => tso_replay(alloc, recording),
        answer => answer,
    }
}

// By these choices both cores load before either store is written, so both loads get 0, and both are logged: each
// leaves its queue when the other core has written its word. The stores are of different words, so no edge is needed.
#[test]
fn both_loads_are_logged(rt: HostRuntime) -> Result<(), Fail> {
    let run = recorded(rt.alloc(), 30, 0)?;
    has_both(&rt, &run.recording);
    Ok(())
}

/// The recording has both cores' loads, and no edge.
fn has_both(rt: &impl Abort, recording: &TsoRecording) {
    assert!(rt; recording.totals.as_slice() == [7u32, 7].as_slice());
    for edges in recording.reduced.as_slice() {
        assert!(rt; edges.len() == 0);
    }
    let values = recording.values.as_slice();
    assert!(rt; values.len() == 2);
    for logged in values {
        assert!(rt; logged.as_slice() == [(6u32, 0u32)].as_slice());
    }
}

// The outcome has each core's load with the 0 that it got, and both stores in the memory.
#[test]
fn the_outcome_has_all_loads(rt: HostRuntime) -> Result<(), Fail> {
    let run = recorded(rt.alloc(), 30, 0)?;
    has_loads(&rt, &run.outcome);
    Ok(())
}

/// Each core loaded 0 from the other's word, and both words are 1 at the end.
fn has_loads(rt: &impl Abort, outcome: &Outcome) {
    let loads = outcome.loads.as_slice();
    assert!(rt; loads.len() == 2);
    for (core, word) in [(0usize, 20), (1, 16)] {
        let note = LoadNote {
            count: 6,
            word,
            value: 0,
        };
        assert!(rt; loads[core].as_slice() == [note].as_slice(), "core {core}");
    }
    let words = outcome.words.as_slice();
    assert!(rt; (words.get(16).copied(), words.get(20).copied()) == (Some(1), Some(1)));
}

// A replay of each recording gives the loads of the run that was recorded.
#[test]
fn a_replay_gives_the_loads_of_the_run(rt: HostRuntime) -> Result<(), Fail> {
    for seed in 0..20 {
        let run = recorded(rt.alloc(), 0, seed)?;
        let replayed = replayed(rt.alloc(), &run.recording)
            .ok()
            .ok_or("it is replayed")?;
        assert!(rt; replayed.loads.as_slice().len() == run.outcome.loads.as_slice().len());
        for (ours, theirs) in replayed
            .loads
            .as_slice()
            .iter()
            .zip(run.outcome.loads.as_slice())
        {
            assert!(rt; ours.as_slice() == theirs.as_slice());
        }
    }
    Ok(())
}

// Alone, the recording is the same.
#[test]
fn a_recording_is_made_alone(rt: HostRuntime) -> Result<(), Fail> {
    let recording = recorded_alone(rt.alloc())?;
    assert!(rt; recording.totals.as_slice() == [7u32, 7].as_slice());
    assert!(rt; recording.image.len() == 28);
    Ok(())
}
