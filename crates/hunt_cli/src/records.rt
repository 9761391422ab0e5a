//! The words and the recording of a run.
ghost use Rattle.std.specs.Prelude.{◌≡◌, ◌*◌, ◌≤◌, IfOk, length, string_bytes, vec_len};
ghost use Rattle.rtr_types.specs.Parameters.{Fits};
ghost use Rattle.schedule_pick.specs.Choices.{choices_of};
ghost use Rattle.rtr_cli.specs.Buffers.{tso_recorded_bytes};
ghost use Rattle.rtr_cli.specs.Runs.{recorded_bytes};
ghost use Rattle.hunt_cli.specs.Finds.{FindsRecording, FindsWords};
ghost use Rattle.hunt_cli.specs.Kinds.{kind_with, setting_on};

use crate::exits::Answer;
use crate::images::image;
use crate::runs::run_named;
use hunt_runs::HuntedMachine;
use hunt_texts::words_text;
use hunt_words::{RunName, Setup};
use log_codec::spell;
use recorder::record_image;
use schedule_pick::Schedule;
use std::alloc::{AllocError, Global};
use tool_words::RunWords;
use tso_codec::tso_spell;
use tso_record::tso_record_image;

/// The line by which `rtr` records the run of this name. The only refusal is want of memory.
pub(crate) fn words_answer<M: HuntedMachine>(
    alloc: Global,
    bytes: &[u8],
    setup: &Setup,
    name: &RunName,
) -> Result<Answer, AllocError>
    requires fits { Fits setup.now.params }
    requires room { length bytes.now ≤ 4 * setup.now.params.words }
    ensures { IfOk result (λ a. FindsWords setup.now (setting_on (kind_with M.seen_at M.changes_at M.outcome
        M.most_steps
        M.buffers) setup.now.params bytes.now) name.now a.out.items (string_bytes a.report) a.exit) }
{
    let run = run_named::<M>(alloc, bytes, setup.params, name)?;
    let words = run.into_words(setup);
    let text = words_text(alloc, setup.tso, &words)?;
    Ok(Answer::done(alloc, text.into_bytes()))
}

/// The recording of the run of this name, spelled. The only refusal is want of memory.
pub(crate) fn recording_answer<M: HuntedMachine>(
    alloc: Global,
    bytes: Vec<u8>,
    setup: &Setup,
    name: &RunName,
) -> Result<Answer, AllocError>
    requires fits { Fits setup.now.params }
    requires room { vec_len bytes ≤ 4 * setup.now.params.words }
    ensures { IfOk result (λ a. FindsRecording setup.now (setting_on (kind_with M.seen_at M.changes_at M.outcome
        M.most_steps M.buffers) setup.now.params bytes.items) name.now bytes.items a.out.items (string_bytes a.report)
        a.exit) }
{
    let run = run_named::<M>(alloc, bytes.as_slice(), setup.params, name)?;
    let words = run.into_words(setup);
    let out = if setup.tso {
        tso_recorded(alloc, bytes, words)?
    } else {
        recorded(alloc, bytes, words)?
    };
    Ok(Answer::done(alloc, out))
}

/// The recording of the run of the image of these bytes, spelled.
fn recorded(alloc: Global, bytes: Vec<u8>, run: RunWords) -> Result<Vec<u8>, AllocError>
    requires fits { Fits run.params }
    requires room { vec_len bytes ≤ 4 * run.params.words }
    ensures { IfOk result (λ out. out.items ≡ recorded_bytes run bytes.items) }
{
    let opening = image(bytes, run.params.words);
    let params = run.params;
    let recording = record_image(alloc, opening, params, schedule_of(run))?;
    spell(alloc, &recording)
}

/// The recording of the run of the image of these bytes by cores with store buffers, spelled.
fn tso_recorded(alloc: Global, bytes: Vec<u8>, run: RunWords) -> Result<Vec<u8>, AllocError>
    requires fits { Fits run.params }
    requires room { vec_len bytes ≤ 4 * run.params.words }
    ensures { IfOk result (λ out. out.items ≡ tso_recorded_bytes run bytes.items) }
{
    let opening = image(bytes, run.params.words);
    let params = run.params;
    let recording = tso_record_image(alloc, opening, params, schedule_of(run))?;
    tso_spell(alloc, &recording)
}

/// The schedule of a run.
fn schedule_of(run: RunWords) -> Schedule
    ensures { result ≡ choices_of run.choices run.seed }
{
    let RunWords { choices, seed, .. } = run;
    Schedule::new(choices.into_vec(), seed)
}
