//! How a worker waits for the sources of its next instruction.
ghost use Rattle.std.specs.Prelude.{◌≡◌, ◌<◌, ◌≤◌, ◌+◌, false, length, IfNone, IfSome, IsTrue, slice_index};
ghost use Rattle.race_log.specs.Validity.{Valid};
ghost use Rattle.replay_core.specs.Plans.{plan_of};
ghost use Rattle.replay_table.specs.Aheads.{Due};
ghost use Rattle.replay_table.specs.Rule.{seen_of};
ghost use Rattle.replay_table.specs.Seats.{AtRest};
ghost use Rattle.replay_threads.specs.Turns.{Awaits, IsReached, Looks, Publishes, to_see};

use replay_table::{CoreSeat, Job, ReplayTable};
use rtr_types::Instr;

/// After how many loads in a row of a done word that brought nothing new a worker gives its turn up. As long
/// as the awaited count moves it stays; then its group works the other cores, or lets another thread have
/// the processor.
const LOADS: u32 = 64;

/// Loads done words until all logged sources of the next instruction are seen. Answers one that isn't
/// where its core didn't get on for long enough.
#[tactic(auto, using(crate::proofs::TurnEnds::looks_none, crate::proofs::TurnEnds::looks_then))]
pub(crate) fn wait<J: Job>(seat: &mut CoreSeat<J>, table: &ReplayTable<J>) -> Option<Instr>
    requires table { seat.old.table_id ≡ table.now }
    requires below { seat.old.core.count < slice_index J.recording.totals seat.old.core.id }
    ensures looks { Looks seat.old seat.new }
    ensures none { IfNone result (Due (plan_of J.which J.recording) (seen_of seat.new.view) seat.new.core) }
    ensures some { IfSome result (λ of. Awaits J.which J.recording of seat.old seat.new) }
{
    while let Some(of) = seat.unmet() {
        if !await_source(seat, of, table) {
            return Some(of);
        }
    }
    None
}

/// Loads the done word of a source's core until the source is seen, or until so many loads in a row brought
/// nothing new.
#[tactic(auto, using(crate::proofs::TurnEnds::looks_none, crate::proofs::TurnEnds::looks_then))]
#[inline(never)]
fn await_source<J: Job>(seat: &mut CoreSeat<J>, of: Instr, table: &ReplayTable<J>) -> bool
    requires table { seat.old.table_id ≡ table.now }
    requires core { of.core < length J.recording.totals }
    requires unseen { seen_of seat.old.view of.core < of.count }
    ensures looks { Looks seat.old seat.new }
    ensures seen { IsTrue result → to_see seat.new.view < to_see seat.old.view }
    ensures unseen { result ≡ false → (seen_of seat.new.view of.core < of.count)
        × (slice_index seat.old.view.polls of.core + 64 ≤ slice_index seat.new.view.polls of.core) }
{
    let mut seen = seat.seen(of.core);
    let mut idle = 0;
    while idle < LOADS {
        let found = look(seat, of.core, table);
        if found >= of.count {
            return true;
        }
        idle = if found > seen { 0 } else { idle + 1 };
        seen = found;
    }
    false
}

/// Loads a core's done word once, and answers what is then seen of the core.
fn look<J: Job>(seat: &mut CoreSeat<J>, of: u8, table: &ReplayTable<J>) -> u32
    requires table { seat.old.table_id ≡ table.now }
    requires core { of < length J.recording.totals }
    ensures looks { Looks seat.old seat.new }
    ensures seen { result ≡ seen_of seat.new.view of }
    ensures polls { slice_index seat.new.view.polls of ≡ slice_index seat.old.view.polls of + 1 }
    ensures least { to_see seat.new.view ≤ to_see seat.old.view }
    ensures less { seen_of seat.old.view of < result → to_see seat.new.view < to_see seat.old.view }
{
    table.seen_done(seat, of)
}

/// Publishes the core's count.
pub(crate) fn publish<J: Job>(seat: &mut CoreSeat<J>, table: &ReplayTable<J>)
    requires { seat.old.table_id ≡ table.now }
    ensures looks { Looks seat.old seat.new }
    ensures published { Publishes seat.old seat.new }
    ensures rest { AtRest seat.new }
    ensures reached { IsReached J.which J.recording seat.new }
{
    table.publish(seat);
}
