//! A run of a generated image, recorded and replayed.
ghost use Rattle.std.specs.Prelude.{◌≡◌, ◌*◌, ◌≤◌, [], IfErr, IfOk, IsTrue, OnOk, length};
ghost use Rattle.run_outcome.specs.Outcomes.{outcome_of};
ghost use Rattle.run_records.specs.Recordings.{recording_of};
ghost use Rattle.race_log.specs.Validity.{Valid};
ghost use Rattle.rtr_types.specs.Parameters.{Fits};
ghost use Rattle.trace_gen.specs.Programs.{generated, takes};
ghost use Rattle.rtr_cli.specs.Soaks.{IsSoaked, SoakEnds};
ghost use Rattle.rtr_cli.specs.Promises.{KeepsRun};

use crate::commands::{audited, image};
use crate::soak_texts::{changed_words, soak_text};
use image_mem::Image;
use race_log::Recording;
use recorder::record_image;
use rtr_types::{Params, Which};
use run_outcome::laws::a_run_fits_its_image;
use rv_core::Outcome;
use schedule_pick::Schedule;
use state_text::Exit;
use std::alloc::Global;
use trace_gen::{Shape, gen_image};

/// What a run of the image of this shape and number comes to, as text. The run is recorded, and replayed by the
/// reduced log of its recording, which no audit refuses: the recording keeps the run, so that its replay comes to what
/// the run came to. The image may be longer than the memory: that alone and want of memory are refused.
pub(crate) fn soak(
    alloc: Global,
    shape: Shape,
    number: u64,
    params: Params,
    seed: u64,
) -> Result<Vec<u8>, Exit>
    requires fits { Fits params }
    requires takes { IsTrue (takes shape number) }
    ensures made { IfOk result (λ out. IsSoaked shape number params seed out.items) }
    ensures promised { OnOk result (KeepsRun params [] seed (generated shape number)) }
    ensures refused { IfErr result (SoakEnds shape params) }
{
    a_run_fits_its_image();
    let bytes = gen_image(alloc, number, shape)?;
    if bytes.len() > 4 * params.words as usize {
        return Err(Exit::TooLarge);
    }
    let again = gen_image(alloc, number, shape)?;
    let opening = image(again, params.words);
    let schedule = Schedule::new(Vec::new(alloc), seed);
    let (recording, outcome) = replayed(alloc, image(bytes, params.words), params, schedule)?;
    let changed = changed_words(&opening, outcome.words.as_slice());
    Ok(soak_text(alloc, shape, number, &recording, changed)?)
}

/// The recording of a run of the image, and what its replay by the reduced log comes to. That is what the run came
/// to, and nothing but want of memory refuses it.
#[tactic(auto, using(crate::proofs::RecordingLemmas::run_audited, crate::proofs::RecordingLemmas::run_not_refused))]
fn replayed(
    alloc: Global,
    image: Image,
    params: Params,
    schedule: Schedule,
) -> Result<(Recording, Outcome), Exit>
    requires fits { Fits params }
    requires words { image.words ≡ params.words }
    requires room { length image.bytes ≤ 4 * params.words }
    ensures recording { IfOk result (λ pair. pair.0 ≡ recording_of image params schedule) }
    ensures valid { IfOk result (λ pair. Valid pair.0) }
    ensures outcome { IfOk result (λ pair. pair.1 ≡ outcome_of image params schedule) }
    ensures refused { IfErr result (λ exit. exit ≡ Exit.OutOfMemory) }
{
    let recording = record_image(alloc, image, params, schedule)?;
    let audited = audited(alloc, recording, Which::Reduced)?;
    Ok(audited.into_parts())
}
