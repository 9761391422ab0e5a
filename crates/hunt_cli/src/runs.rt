//! Runs that are made: of a policy by number, and by turns.
ghost use Rattle.std.specs.Prelude.{◌≡◌, ◌*◌, ◌≤◌, IfOk, length};
ghost use Rattle.rtr_types.specs.Parameters.{Fits};
ghost use Rattle.run_steps.specs.Ways.{IsSetUp};
ghost use Rattle.turn_policies.specs.Named.{numbered_by};
ghost use Rattle.turn_policies.specs.PickedTurns.{turns_of_picks};
ghost use Rattle.hunt_runs.specs.Picked.{picks_numbered};
ghost use Rattle.hunt_cli.specs.Kinds.{course, kind_with, named_choices, numbered_choices, picks, setting_in};
ghost use Rattle.hunt_cli.specs.Kinds.{setting_on, turns_choices};
ghost use Rattle.hunt_cli.specs.RunEnds.{IsRunUnder};

use crate::ends::RunEnd;
use crate::images::machine;
use hunt_runs::{
    Counted, Counting, HuntedMachine, picks_numbered, run_numbered, run_of_turns, straight_counts,
};
use hunt_words::RunName;
use rtr_types::{Items, Params};
use std::alloc::{AllocError, Global};
use turn_lists::Turn;
use turn_policies::{Named, Numbered, turns_of_picks};

/// What was counted in the straight run of the image of these bytes. The only refusal is want of memory.
pub(crate) fn counted<M: HuntedMachine>(
    alloc: Global,
    bytes: &[u8],
    params: Params,
) -> Result<Counted, AllocError>
    requires fits { Fits params }
    requires room { length bytes.now ≤ 4 * params.words }
    ensures { IfOk result (λ c. c ≡ picks (setting_on (kind_with M.seen_at M.changes_at M.outcome M.most_steps
        M.buffers)
        params bytes.now)) }
{
    let opening = machine::<M>(alloc, bytes, params)?;
    let Counting {
        counted,
        machine: _machine,
    } = straight_counts(alloc, opening, params)?;
    Ok(counted)
}

/// The run of this number of the program of an image, of whose straight run these are the counts. The only refusal is
/// want of memory.
pub(crate) fn numbered<M: HuntedMachine>(
    alloc: Global,
    machine: M,
    params: Params,
    counted: &Counted,
    number: Numbered,
) -> Result<RunEnd<M>, AllocError>
    requires set_up { IsSetUp (M.image machine) params }
    requires counts { counted.now ≡ picks (setting_in (kind_with M.seen_at M.changes_at M.outcome M.most_steps
        M.buffers)
        (M.image machine) params) }
    ensures { IfOk result (λ r. let s = setting_in (kind_with M.seen_at M.changes_at M.outcome M.most_steps M.buffers)
        (M.image machine) params in IsRunUnder s (numbered_choices s number) r) }
{
    let ended = run_numbered::<M>(alloc, machine, params, counted, number)?;
    Ok(RunEnd::of(ended, params.cores))
}

/// The run by these turns of the program of an image. The only refusal is want of memory.
pub(crate) fn by_turns<M: HuntedMachine>(
    alloc: Global,
    machine: M,
    params: Params,
    turns: &[Turn],
) -> Result<RunEnd<M>, AllocError>
    requires { IsSetUp (M.image machine) params }
    ensures { IfOk result (λ r. let s = setting_in (kind_with M.seen_at M.changes_at M.outcome M.most_steps M.buffers)
        (M.image machine) params in IsRunUnder s (turns_choices s turns.now) r) }
{
    let turns = Items::from_vec(turns.to_vec(alloc)?);
    let ended = run_of_turns::<M>(alloc, machine, params, turns)?;
    Ok(RunEnd::of(ended, params.cores))
}

/// The turns that the picks of the run of this number make, of the image of these bytes, of whose straight run these
/// are the counts: of the first `room` picks. The only refusal is want of memory.
pub(crate) fn picked_turns<M: HuntedMachine>(
    alloc: Global,
    bytes: &[u8],
    params: Params,
    counted: &Counted,
    number: Numbered,
    room: usize,
) -> Result<Items<Turn>, AllocError>
    requires fits { Fits params }
    requires memory { length bytes.now ≤ 4 * params.words }
    requires counts { counted.now ≡ picks (setting_on (kind_with M.seen_at M.changes_at M.outcome M.most_steps
        M.buffers) params bytes.now) }
    ensures { IfOk result (λ turns. let s = setting_on (kind_with M.seen_at M.changes_at M.outcome M.most_steps
        M.buffers) params bytes.now in turns ≡ turns_of_picks (picks_numbered (course s) (picks s) number room
        params.cores (M.most_steps params))) }
{
    let opening = machine::<M>(alloc, bytes, params)?;
    let actors = picks_numbered(alloc, opening, params, counted, number, room)?;
    turns_of_picks(alloc, actors.as_slice())
}

/// The run of a policy with this number, of the image of these bytes, of whose straight run these are the counts. The
/// only refusal is want of memory.
pub(crate) fn run_at<M: HuntedMachine>(
    alloc: Global,
    bytes: &[u8],
    params: Params,
    counted: &Counted,
    by: Named,
    number: u64,
) -> Result<RunEnd<M>, AllocError>
    requires fits { Fits params }
    requires room { length bytes.now ≤ 4 * params.words }
    requires counts { counted.now ≡ picks (setting_on (kind_with M.seen_at M.changes_at M.outcome M.most_steps
        M.buffers) params
        bytes.now) }
    ensures { IfOk result (λ r. IsRunUnder (setting_on (kind_with M.seen_at M.changes_at M.outcome M.most_steps
        M.buffers)
        params bytes.now) (numbered_choices (setting_on (kind_with M.seen_at M.changes_at M.outcome M.most_steps
        M.buffers) params bytes.now) (numbered_by by number)) r) }
{
    let opening = machine(alloc, bytes, params)?;
    numbered(alloc, opening, params, counted, by.numbered(number))
}

/// The run by these turns of the image of these bytes. The only refusal is want of memory.
pub(crate) fn run_by<M: HuntedMachine>(
    alloc: Global,
    bytes: &[u8],
    params: Params,
    turns: &[Turn],
) -> Result<RunEnd<M>, AllocError>
    requires fits { Fits params }
    requires room { length bytes.now ≤ 4 * params.words }
    ensures { IfOk result (λ r. IsRunUnder (setting_on (kind_with M.seen_at M.changes_at M.outcome M.most_steps
        M.buffers)
        params bytes.now) (turns_choices (setting_on (kind_with M.seen_at M.changes_at M.outcome M.most_steps M.buffers)
        params bytes.now) turns.now) r) }
{
    let opening = machine(alloc, bytes, params)?;
    by_turns(alloc, opening, params, turns)
}

/// The run of this name of the image of these bytes. The only refusal is want of memory.
pub(crate) fn run_named<M: HuntedMachine>(
    alloc: Global,
    bytes: &[u8],
    params: Params,
    run: &RunName,
) -> Result<RunEnd<M>, AllocError>
    requires fits { Fits params }
    requires room { length bytes.now ≤ 4 * params.words }
    ensures { IfOk result (λ r. IsRunUnder (setting_on (kind_with M.seen_at M.changes_at M.outcome M.most_steps
        M.buffers)
        params bytes.now) (named_choices (setting_on (kind_with M.seen_at M.changes_at M.outcome M.most_steps M.buffers)
        params bytes.now) run.now) r) }
{
    match run {
        RunName::Numbered { by, number } => {
            let counted = counted::<M>(alloc, bytes, params)?;
            run_at(alloc, bytes, params, &counted, *by, *number)
        }
        RunName::Turns(turns) => run_by(alloc, bytes, params, turns.as_slice()),
    }
}
