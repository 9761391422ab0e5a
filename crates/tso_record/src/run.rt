//! The run of an image by cores with store buffers, recorded.
ghost use Rattle.std.specs.Prelude.{◌≡◌, ◌<◌, ℕ, IfOk, IsTrue, OnOk, slice_index};
ghost use Rattle.run_steps.specs.Ways.{IsSetUp};
ghost use Rattle.tso_recordings.specs.Follows.{ReplaysTsoRun};
ghost use Rattle.tso_core.specs.Machineries.{heads_roomy};
ghost use Rattle.tso_outcome.specs.Outcomes.{tso_outcome_of};
ghost use Rattle.tso_record.specs.Promises.{IsTsoRecordingOf};
ghost use Rattle.tso_record.specs.Standing.{RecordsAt};

use crate::run_clerk::RunClerk;
use crate::uncarried::Uncarried;
use access_times::Times;
use image_mem::Image;
use rtr_types::{Items, Params};
use run_steps::{Made, Running, Stepping, run_to_end, totals_of};
use rv_core::Outcome;
use schedule_pick::Schedule;
use std::alloc::Global;
use tso_codec::TsoRecording;
use tso_core::BufferedMachine;
use tso_run::tso_run;

/// Runs the image on cores with store buffers to its end, under the schedule, and records the run. The only refusal is
/// want of memory.
///
/// The recording is one function of image, parameters and schedule. Its reduced log is the least set of the accesses
/// that the run ordered: each of its edges is a conflict, they imply the order of every two of them that conflict, and
/// no set of conflicts that does lacks one of them. Its values are the words of the loads that the run logged: of each
/// load that left its core's queue where the core's port couldn't read the word, or where the word differed from the
/// value that the load got, and of no other. Every replay order of it follows the run: it plays by the run's accesses,
/// gives each core the first of the run's loads and atomic memory operations, each with the word that it got, and can go
/// on until it is whole; a whole one ends with the run's cores, memory and loads.
pub fn tso_record_image(
    alloc: Global,
    image: Image,
    params: Params,
    schedule: Schedule,
) -> Made<TsoRecording>
    requires { IsSetUp image params }
    ensures recorded { IfOk result (λ recording. IsTsoRecordingOf image params schedule recording) }
    ensures replayed { IfOk result (λ recording. ReplaysTsoRun image params schedule recording) }
{
    let words = image.words();
    prove!(words == params.words);
    are_bytes(image.bytes());
    let mut clerk = RunClerk::new(alloc, params.cores)?;
    let mut machine = BufferedMachine::<Times, Uncarried>::new(alloc, image, params)?;
    make_rooms(&mut machine, &mut clerk)?;
    let ended = run_to_end::<Recorder>(machine, clerk, schedule)?;
    let totals = totals_of(alloc, &ended.machine, params.cores)?;
    let logs = ended.clerk.finish();
    Ok(TsoRecording {
        params,
        totals,
        reduced: logs.reduced,
        values: logs.values,
        image: Items::from_vec(ended.machine.into_image().into_bytes()),
    })
}

/// Records the run, as `tso_record_image` does, and tells what it came to: its cores, its memory, and all loads and
/// atomic memory operations with the words that they got. It makes the run twice, so that neither run keeps what the
/// other is for. The only refusal is want of memory.
///
/// The outcome and the recording are one function of image, parameters and schedule; of the recording holds what
/// `tso_record_image` says.
pub fn tso_record(
    alloc: Global,
    image: Image,
    params: Params,
    schedule: Schedule,
) -> Made<TsoRecorded>
    requires { IsSetUp image params }
    ensures outcome { IfOk result (λ run. run.outcome ≡ tso_outcome_of image params schedule) }
    ensures recorded { IfOk result (λ run. IsTsoRecordingOf image params schedule run.recording) }
    ensures replayed { IfOk result (λ run. ReplaysTsoRun image params schedule run.recording) }
{
    let again = schedule.copied(alloc)?;
    let ran = tso_run(alloc, image, params, schedule)?;
    let recording = tso_record_image(alloc, ran.image, params, again)?;
    let outcome = ran.outcome;
    Ok(TsoRecorded { recording, outcome })
}

/// The recording of a run, and what the run came to.
#[derive(Drop)]
pub struct TsoRecorded {
    /// The recording, with the reduced log and the logged loads.
    pub recording: TsoRecording,
    /// The cores, the final memory and what each core's loads and atomic memory operations got.
    pub outcome: Outcome,
}

/// Bytes are below 256.
fn are_bytes(bytes: &[u8])
    ensures { (i : ℕ) → slice_index bytes.now i < 256 }
{
    // The type of a byte says so.
    let _ = bytes;
}

/// How cores with store buffers are stepped where their run is recorded. A turn takes the room that was made before,
/// and makes that for the next.
struct Recorder;

impl Stepping for Recorder {
    type Clerk = RunClerk;

    type Machine = BufferedMachine<Times, Uncarried>;

    ghost ready = { λ r. IsTrue (heads_roomy r.machine) × IsTrue r.clerk.reduction.ready × IsTrue r.clerk.roomy };

    ghost stands = { λ r image params schedule t.
        RecordsAt image params schedule t r.machine.state r.clerk r.choices };

    fn turn(run: &mut Running<Self::Machine, Self::Clerk>) -> Made<()> {
        run.machine.step_timed(run.choices.next(), &mut run.clerk);
        make_rooms(&mut run.machine, &mut run.clerk)?;
        Ok(())
    }
}

/// Makes room for the next step, in the machine and in the clerk.
///
/// It is made behind each step, so that the machine tells without another look at the home whether a move is left.
fn make_rooms(machine: &mut BufferedMachine<Times, Uncarried>, clerk: &mut RunClerk) -> Made<()>
    ensures state { machine.new.state ≡ machine.old.state }
    ensures reduction { clerk.new.reduction.state ≡ clerk.old.reduction.state }
    ensures values { clerk.new.values ≡ clerk.old.values }
    ensures heads { OnOk result (IsTrue (heads_roomy machine.new)) }
    ensures ready { OnOk result (IsTrue clerk.new.reduction.ready) }
    ensures roomy { OnOk result (IsTrue clerk.new.roomy) }
{
    machine.make_room()?;
    clerk.make_room()
}
