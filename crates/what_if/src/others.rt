//! The run in which another core goes first.
ghost use Rattle.std.specs.Prelude.{◌≡◌, ◌++◌, IfOk, OnOk};
ghost use Rattle.race_log.specs.Validity.{Valid};
ghost use Rattle.cut_replay.specs.ClosedCuts.{IsClosed};
ghost use Rattle.what_if.specs.Others.{less, other_outcome, other_places, outcome_by};

use crate::free::free_of;
use crate::going::{finish, walk};
use cut_moves::{Timeline, way, whole};
use race_log::Recording;
use replay_audit::Audited;
use replay_core::Replay;
use rtr_types::{CORES_MAX, Cut, Items, Which};
use rv_core::Outcome;
use std::alloc::{AllocError, Global};

/// A place for each core, as the length of an array.
const PLACES: usize = CORES_MAX as usize;

/// What the run comes to that is the recorded one up to a cut, then takes this core's next instruction, and then goes
/// on without the log: each core where the timeline has it next, if it can go on, and then round by round, until none
/// can. It takes the time of about three replays, and is refused for want of memory alone.
pub fn other_way(
    alloc: Global,
    audited: &Audited,
    cut: &Cut,
    first: u8,
) -> Result<Outcome, AllocError>
    requires { IsClosed audited.now.which audited.now.recording cut.now }
    ensures { IfOk result (λ outcome. outcome
        ≡ other_outcome audited.now.which audited.now.recording cut.now first) }
{
    let places = other_places(alloc, audited, cut, first)?;
    let free = free_of(alloc, audited.recording())?;
    outcome_by(alloc, &free, places.as_slice())
}

/// What a recording without logs comes to by these places, and then round by round.
fn outcome_by(alloc: Global, free: &Recording, places: &[u8]) -> Result<Outcome, AllocError>
    requires { Valid free.now }
    ensures { IfOk result (λ outcome. outcome ≡ outcome_by free.now places.now) }
{
    let mut replay = Replay::new(alloc, free, Which::Reduced)?;
    walk(&mut replay, places)?;
    finish(&mut replay, free.params.limit)?;
    replay.into_outcome(alloc)
}

/// The timeline as far as a cut, then this core, and then what else is left of the timeline.
fn other_places(
    alloc: Global,
    audited: &Audited,
    cut: &Cut,
    first: u8,
) -> Result<Items<u8>, AllocError>
    requires { IsClosed audited.now.which audited.now.recording cut.now }
    ensures { IfOk result (λ places. places
        ≡ other_places audited.now.which audited.now.recording cut.now first) }
{
    // The audit passed a valid recording, so the cut of all it has is closed.
    let _ = audited.recording();
    let timeline = Timeline::by_rounds(alloc, audited)?;
    let nothing = Cut {
        cores: cut.cores,
        counts: [0; PLACES],
    };
    let mut places = way(alloc, audited, &timeline, &nothing, cut)?;
    let behind = way(alloc, audited, &timeline, cut, &whole(audited))?;
    places.push(first)?;
    put_less(&mut places, first, behind.as_slice())?;
    Ok(places)
}

/// Puts all but the first place of a core behind others.
fn put_less(places: &mut Items<u8>, core: u8, behind: &[u8]) -> Result<(), AllocError>
    ensures { OnOk result (places.new ≡ places.old ++ less core behind.now) }
{
    let mut taken = false;
    for place in behind {
        if !taken && *place == core {
            taken = true;
        } else {
            places.push(*place)?;
        }
    }
    Ok(())
}
