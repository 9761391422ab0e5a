//! A worker's turn: its core runs by what the table gives.
ghost use Rattle.std.specs.Prelude.{◌≡◌, ◌<◌, ◌≤◌, ◌+◌, false, IfNone, IfOk, IfSome, IsTrue, slice_index};
ghost use Rattle.rv_core.specs.Needs.{is_writing};
ghost use Rattle.rv_core.specs.Steps.{need as need_of_core, is_whole};
ghost use Rattle.race_log.specs.Validity.{Valid};
ghost use Rattle.replay_core.specs.Plans.{plan_of, recorded_image};
ghost use Rattle.replay_table.specs.Aheads.{Due};
ghost use Rattle.replay_table.specs.Rule.{seen_of};
ghost use Rattle.replay_table.specs.Seats.{AtRest};
ghost use Rattle.replay_threads.specs.Turns.{Continues, EndsBy, IsReached};

use crate::waits::{publish, wait};
use crate::wanted::Wanted;
use race_log::Recording;
use replay_table::{CoreSeat, Gate, Job, ReplayTable};
use rtr_types::{Instr, Which};
use rv_core::Need;
use std::alloc::AllocError;

/// How a worker's turn ended.
#[derive(Clone, Copy)]
pub enum Turn {
    /// The core is at its total.
    Ended,
    /// The core's next instruction waits for this logged source, which wasn't seen by at least 64 loads of
    /// its core's done word.
    Waiting { of: Instr },
    /// The core's program is done below the core's total.
    Short,
    /// Another core's write came between the two steps of a write that depends on the word before.
    Raced,
}

/// Runs the core until it is at its total, or the turn ends before.
#[tactic(auto, using(crate::proofs::TurnEnds::turns_go_on))]
pub(crate) fn run<J: Job, G: Gate>(
    seat: &mut CoreSeat<J>,
    wanted: &mut Wanted,
    recording: &Recording,
    which: Which,
    total: u32,
    table: &ReplayTable<J>,
    gate: &G,
) -> Result<Turn, AllocError>
    requires valid { Valid J.recording }
    requires recording { recording.now ≡ J.recording }
    requires table { seat.old.table_id ≡ table.now }
    requires total { total ≡ slice_index J.recording.totals seat.old.core.id }
    ensures goes_on { Continues seat.old seat.new }
    ensures rest { IfOk result (λ turn. AtRest seat.new) }
    ensures reached { IfOk result (λ turn. IsReached J.which J.recording seat.new) }
    ensures ends { IfOk result (λ turn. EndsBy J.which J.recording seat.old turn seat.new) }
{
    while seat.core().count() < total {
        let until = wanted.until(total);
        if let Some(end) = go_on(seat, until, total, table, gate)? {
            publish(seat, table);
            return Ok(end);
        }
        if wanted.is_due(seat.core().count()) {
            publish(seat, table);
            wanted.pass(recording, which, seat.core().id(), seat.core().count());
        }
    }
    publish(seat, table);
    Ok(Turn::Ended)
}

/// One instruction more, and local ones up to this count before and after it, if the turn doesn't end before it.
#[tactic(auto, using(crate::proofs::TurnEnds::goes_then, crate::proofs::TurnEnds::ends_sooner))]
fn go_on<J: Job, G: Gate>(
    seat: &mut CoreSeat<J>,
    until: u32,
    total: u32,
    table: &ReplayTable<J>,
    gate: &G,
) -> Result<Option<Turn>, AllocError>
    requires valid { Valid J.recording }
    requires table { seat.old.table_id ≡ table.now }
    requires total { total ≡ slice_index J.recording.totals seat.old.core.id }
    requires below { seat.old.core.count < total }
    requires until { until ≤ total }
    ensures goes_on { Continues seat.old seat.new }
    ensures more { IfOk result (λ end. IfNone end (seat.old.core.count < seat.new.core.count)) }
    ensures ends { IfOk result (λ end. IfSome end (λ turn. EndsBy J.which J.recording seat.old turn seat.new)) }
{
    if let Some(of) = wait(seat, table) {
        return Ok(Some(Turn::Waiting { of }));
    }
    if !run_locals(seat, until, table, gate) {
        return Ok(None);
    }
    seat.make_room()?;
    Ok(retire(seat, until, table, gate))
}

/// Local instructions up to this count, without a step of the table. Answers whether the next one is ready.
fn run_locals<J: Job, G: Gate>(
    seat: &mut CoreSeat<J>,
    until: u32,
    table: &ReplayTable<J>,
    gate: &G,
) -> bool
    requires table { seat.old.table_id ≡ table.now }
    requires due { Due (plan_of J.which J.recording) (seen_of seat.old.view) seat.old.core }
    requires until { until ≤ slice_index J.recording.totals seat.old.core.id }
    ensures goes_on { Continues seat.old seat.new }
    ensures ready { IsTrue result → Due (plan_of J.which J.recording) (seen_of seat.new.view) seat.new.core }
    ensures more { result ≡ false → seat.old.core.count < seat.new.core.count }
{
    table.locals(seat, until, gate)
}

/// The next instruction, which is due, and local ones up to this count after a load or a store of a whole word, unless
/// the program is done or the write loses its word.
fn retire<J: Job, G: Gate>(
    seat: &mut CoreSeat<J>,
    until: u32,
    table: &ReplayTable<J>,
    gate: &G,
) -> Option<Turn>
    requires valid { Valid J.recording }
    requires table { seat.old.table_id ≡ table.now }
    requires until { until ≤ slice_index J.recording.totals seat.old.core.id }
    requires due { Due (plan_of J.which J.recording) (seen_of seat.old.view) seat.old.core }
    requires room { IsTrue seat.old.roomy }
    ensures goes_on { Continues seat.old seat.new }
    ensures more { IfNone result (seat.old.core.count < seat.new.core.count) }
    ensures ends { IfSome result (λ turn. EndsBy J.which J.recording seat.old turn seat.new) }
{
    let core = seat.core();
    let at = Instr {
        core: core.id(),
        count: core.count() + 1,
    };
    let need = seat.need();
    match need {
        Need::Done(_) => {
            publish(seat, table);
            Some(Turn::Short)
        }
        Need::Local => {
            gate.pass(at);
            table.local(seat);
            None
        }
        Need::Load { .. } => {
            gate.pass(at);
            table.load_on(seat, until, gate);
            None
        }
        Need::Store { .. } | Need::Amo { .. } => {
            gate.pass(at);
            write(seat, need, until, table, gate)
        }
    }
}

/// The next instruction, which writes.
fn write<J: Job, G: Gate>(
    seat: &mut CoreSeat<J>,
    need: Need,
    until: u32,
    table: &ReplayTable<J>,
    gate: &G,
) -> Option<Turn>
    requires table { seat.old.table_id ≡ table.now }
    requires until { until ≤ slice_index J.recording.totals seat.old.core.id }
    requires due { Due (plan_of J.which J.recording) (seen_of seat.old.view) seat.old.core }
    requires room { IsTrue seat.old.roomy }
    requires need { need ≡ need_of_core (recorded_image J.recording) seat.old.core }
    requires write { IsTrue (is_writing need) }
    ensures goes_on { Continues seat.old seat.new }
    ensures more { IfNone result (seat.old.core.count < seat.new.core.count) }
    ensures ends { IfSome result (λ turn. EndsBy J.which J.recording seat.old turn seat.new) }
{
    if need.is_whole() {
        store_whole(seat, until, table, gate);
        return None;
    }
    exchange(seat, table)
}

/// The next instruction, which stores a whole word, and local ones after it up to this count.
fn store_whole<J: Job, G: Gate>(
    seat: &mut CoreSeat<J>,
    until: u32,
    table: &ReplayTable<J>,
    gate: &G,
)
    requires table { seat.old.table_id ≡ table.now }
    requires until { until ≤ slice_index J.recording.totals seat.old.core.id }
    requires due { Due (plan_of J.which J.recording) (seen_of seat.old.view) seat.old.core }
    requires room { IsTrue seat.old.roomy }
    requires write { IsTrue (is_writing (need_of_core (recorded_image J.recording) seat.old.core)) }
    requires whole { IsTrue (is_whole (need_of_core (recorded_image J.recording) seat.old.core)) }
    ensures goes_on { Continues seat.old seat.new }
    ensures more { seat.old.core.count < seat.new.core.count }
{
    table.store_on(seat, until, gate);
}

/// The next instruction, whose word is held and then exchanged for the value after, unless another write came
/// in between.
fn exchange<J: Job>(seat: &mut CoreSeat<J>, table: &ReplayTable<J>) -> Option<Turn>
    requires table { seat.old.table_id ≡ table.now }
    requires due { Due (plan_of J.which J.recording) (seen_of seat.old.view) seat.old.core }
    requires room { IsTrue seat.old.roomy }
    requires write { IsTrue (is_writing (need_of_core (recorded_image J.recording) seat.old.core)) }
    requires part { is_whole (need_of_core (recorded_image J.recording) seat.old.core) ≡ false }
    ensures goes_on { Continues seat.old seat.new }
    ensures more { IfNone result (seat.old.core.count < seat.new.core.count) }
    ensures ends { IfSome result (λ turn. EndsBy J.which J.recording seat.old turn seat.new) }
{
    table.hold_word(seat);
    match table.store_word(seat) {
        Ok(()) => None,
        Err(_) => Some(Turn::Raced),
    }
}
