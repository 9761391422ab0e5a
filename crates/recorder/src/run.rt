//! The run of an image, recorded.
ghost use Rattle.std.specs.Prelude.{◌≡◌, IfOk};
ghost use Rattle.run_outcome.specs.Outcomes.{outcome_of};
ghost use Rattle.recorder.specs.Promises.{IsRecordingOf};
ghost use Rattle.run_records.specs.Standing.{RecordsAt};
ghost use Rattle.run_steps.specs.Ways.{IsSetUp};

use crate::run_clerk::RunClerk;
use access_times::Times;
use image_mem::Image;
use know_history::Known;
use msi_machine::Machine;
use msi_run::run_image;
use race_log::Recording;
use rtr_types::{Items, Params};
use run_steps::{Made, Running, Stepping, run_to_end, totals_of};
use rv_core::Outcome;
use schedule_pick::Schedule;
use std::alloc::Global;

/// The recording of a run, and what the run came to.
#[derive(Drop)]
pub struct Recorded {
    /// The recording, with both logs.
    pub recording: Recording,
    /// The cores, the final memory and what each core's loads got.
    pub outcome: Outcome,
}

/// Runs the image on the machine to its end, under the schedule, and records the run. The only refusal
/// is want of memory.
///
/// The recording is one function of image, parameters and schedule. The reduced log is the least set of
/// the run's accesses: each of its edges is a conflict, they imply the order of every two accesses that
/// conflict, and no set of conflicts that does lacks one of them. The regulated log has each pair's greedy
/// vectors of these edges, by what is known in the run at each instruction: whatever counts the
/// instructions that are known gives these vectors.
pub fn record_image(
    alloc: Global,
    image: Image,
    params: Params,
    schedule: Schedule,
) -> Made<Recording>
    requires { IsSetUp image params }
    ensures { IfOk result (λ recording. IsRecordingOf image params schedule recording) }
{
    let words = image.words();
    prove!(words == params.words);
    let clerk = RunClerk::new(alloc, params.cores)?;
    let machine = Machine::<Times, Known>::new(alloc, image, params)?;
    let ended = run_to_end::<Recorder>(machine, clerk, schedule)?;
    let totals = totals_of(alloc, &ended.machine, params.cores)?;
    let logs = ended.clerk.finish();
    Ok(Recording {
        params,
        image: Items::from_vec(ended.machine.into_image().into_bytes()),
        totals,
        reduced: logs.reduced,
        regulated: logs.regulated,
    })
}

/// Records the run, as `record_image` does, and tells what it came to. It makes the run twice, so that
/// neither run keeps what the other is for. The only refusal is want of memory.
///
/// The outcome and the recording are one function of image, parameters and schedule; of the recording holds
/// what `record_image` says.
pub fn record_run(alloc: Global, image: Image, params: Params, schedule: Schedule) -> Made<Recorded>
    requires { IsSetUp image params }
    ensures outcome { IfOk result (λ run. run.outcome ≡ outcome_of image params schedule) }
    ensures recorded { IfOk result (λ run. IsRecordingOf image params schedule run.recording) }
{
    let again = schedule.copied(alloc)?;
    let ran = run_image(alloc, image, params, schedule)?;
    let recording = record_image(alloc, ran.image, params, again)?;
    let outcome = ran.outcome;
    Ok(Recorded { recording, outcome })
}

/// How the machine is stepped where its run is recorded.
struct Recorder;

impl Stepping for Recorder {
    type Machine = Machine<Times, Known>;

    type Clerk = RunClerk;

    ghost stands = { λ r image params schedule t.
        RecordsAt image params schedule t r.machine.state r.clerk r.choices };

    ghost ready = { λ r. Unit {0} };

    fn turn(run: &mut Running<Self::Machine, Self::Clerk>) -> Made<()> {
        run.machine.make_room()?;
        run.clerk.ready()?;
        run.machine.step_timed(run.choices.next(), &mut run.clerk);
        run.clerk.tell();
        Ok(())
    }
}
