//! One order of a whole run: the timeline by rounds.
ghost use Rattle.std.specs.Prelude.{◌≡◌, ◌++◌, IfOk, MatchOption, OnOk, length};
ghost use Rattle.replay_core.specs.Orders.{IsReplayOrder, IsWhole, counts};
ghost use Rattle.replay_core.specs.Plans.{plan_of};
ghost use Rattle.replay_core.specs.Tallies.{count_of};
ghost use Rattle.cut_moves.specs.Rounds.{AreReady, NoneAreReady, SomeAreReady, round, rounds_of};

use crate::lattice::PLACES;
use crate::moves::whole;
use replay_audit::Audited;
use replay_core::Tally;
use rtr_types::{CoreSet, Cut, Items};
use std::alloc::{AllocError, Global};

/// The places of the timeline by rounds: each of them is a core, one byte a place.
pub(crate) fn rounds_in(alloc: Global, audited: &Audited) -> Result<Items<u8>, AllocError>
    ensures rounds { IfOk result (λ list. list ≡ rounds_of audited.now.which audited.now.recording) }
    ensures ordered { IfOk result (λ list.
        IsReplayOrder (plan_of audited.now.which audited.now.recording) list) }
    ensures whole { IfOk result (λ list. IsWhole (plan_of audited.now.which audited.now.recording) list) }
{
    // The audit passed, so the order is whole.
    let _ = audited.outcome();
    let mut tally = Tally::new(alloc, audited.recording(), audited.which())?;
    let mut list = Vec::with_capacity(alloc, places_in(&whole(audited)))?;
    while let Some(ready) = ready_cores(&tally) {
        take_round(&mut tally, ready, &mut list)?;
    }
    Ok(Items::from_vec(list))
}

/// The cores that are ready, if there are any.
fn ready_cores(tally: &Tally) -> Option<CoreSet>
    ensures { MatchOption result (NoneAreReady tally.now.plan (count_of tally.now.counts))
        (SomeAreReady tally.now.plan (count_of tally.now.counts)) }
{
    let mut ready = CoreSet::empty();
    let mut some = false;
    for core in 0..tally.cores() {
        if tally.is_ready(core) {
            ready = ready.with(core);
            some = true;
        }
    }
    if some { Some(ready) } else { None }
}

/// One round: each of the cores that are ready retires one instruction, lower cores first.
fn take_round(tally: &mut Tally, ready: CoreSet, list: &mut Vec<u8>) -> Result<(), AllocError>
    requires all { length tally.old.counts ≡ length tally.old.plan.totals }
    requires ready { AreReady tally.old.plan (count_of tally.old.counts) ready }
    ensures plan { OnOk result (tally.new.plan ≡ tally.old.plan) }
    ensures all { OnOk result (length tally.new.counts ≡ length tally.old.counts) }
    ensures counts { OnOk result (count_of tally.new.counts
        ≡ counts (count_of tally.old.counts) (round tally.old.plan (count_of tally.old.counts))) }
    ensures list { OnOk result
        (list.new.items ≡ list.old.items ++ round tally.old.plan (count_of tally.old.counts)) }
{
    for core in 0..tally.cores() {
        if ready.has(core) {
            list.push(core)?;
            tally.advance(core);
        }
    }
    Ok(())
}

/// How many instructions the cut has in all.
pub(crate) fn places_in(cut: &Cut) -> usize {
    let mut places = 0;
    for core in 0..PLACES {
        places += cut.counts[core] as usize;
    }
    places
}
