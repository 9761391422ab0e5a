//! The table, and the calls that seats make on it.
ghost use Rattle.std.specs.Prelude.{◌≡◌, ◌<◌, ◌≤◌, ◌+◌, ℕ, [], length, slice_index, false};
ghost use Rattle.std.specs.Prelude.{IfOk, IsSome, IsTrue, Ok, Some};
ghost use Rattle.image_mem.specs.Contents.{opening_words};
ghost use Rattle.race_log.specs.Validity.{Valid};
ghost use Rattle.rv_core.specs.declared.core_state.Need.TheVariants.{Local};
ghost use Rattle.rv_core.specs.Needs.{is_reading, is_writing};
ghost use Rattle.rv_core.specs.Steps.{need, after, wrote, is_whole};
ghost use Rattle.replay_core.specs.Plans.{plan_of, recorded_image};
ghost use Rattle.replay_audit.specs.Determinate.{IsDeterminate};
ghost use Rattle.replay_table.specs.Accesses.{is_load, is_change, word_of};
ghost use Rattle.replay_table.specs.Aheads.{Due, GoesOn};
ghost use Rattle.replay_table.specs.Kinds.{first_alone, rest_view};
ghost use Rattle.replay_table.specs.Rule.{seen_of};
ghost use Rattle.replay_table.specs.Told.{ToldDone, ToldLoad, ToldHold, ToldStore, ToldPublish};
ghost use Rattle.replay_table.specs.Seats.{Dealt, Exchanged, AtRest, IsFresh, IsLowValue, Opening};

use crate::gate::{Gate, OpenGate};
use crate::job::Job;
use crate::past::Past;
use crate::raced::Raced;
use crate::rules::{
    ExchangeWord, HoldWord, LoadWord, PublishCount, RuleOf, SeeDone, StoreWord, TakeFirst, Told,
};
use crate::seat::CoreSeat;
use crate::upcoming::Upcoming;
use crate::view::View;
use atomic_table::{Seat, Table};
use image_mem::{Image, Memory};
use race_log::Recording;
use rtr_types::Which;
use rv_core::{Core, Program};
use std::alloc::{AllocError, Global};
use std::marker::{Model, PhantomData};

/// The table: a word for each word of memory, and a done word for each core. It is shared by reference, and
/// each call takes the seat of its core: calls may be made from threads of their own, and none waits.
#[derive(Drop)]
pub struct ReplayTable<'a, J: Job> {
    pub(crate) recording: &'a Recording,
    pub(crate) which: Which,
    pub(crate) program: Program,
    pub(crate) table: Table<u8, View, (), RuleOf<J>, Global>,
}

impl<'a, J: Job> Model for ReplayTable<'a, J> {
    ghost use Rattle.atomic_table.specs.Seated.{TableId, table_id_coded};
    ghost use Rattle.replay_table.specs.Seats.{Belongs};

    ghost Value = { TableId };

    ghost coded = { table_id_coded };

    ghost view = { λ t. t.table.shared.table_id };

    ghost invariant = { λ t. Belongs J.which J.recording t.which t.recording.now t.program
        t.table.shared.table_id };
}

/// The words of the memory, and a 0 for each core.
#[tactic(auto, using(crate::proofs::Openings::copied_more, crate::proofs::Openings::opening_none))]
fn opening(alloc: Global, memory: &Memory, words: u32, cores: u8) -> Result<Vec<u64>, AllocError>
    requires { length memory.now ≡ words }
    ensures { IfOk result (λ list. Opening memory.now cores list.items) }
{
    let mut list = Vec::new(alloc);
    for word in 0..words {
        list.push(memory.get(word) as u64)?;
    }
    for _core in 0..cores {
        list.push(0)?;
    }
    Ok(list)
}

/// The program of the recording's image, and the words with which its table opens.
fn opened(alloc: Global, recording: &Recording) -> Result<(Program, Vec<u64>), AllocError>
    requires { Valid recording.now }
    ensures program { IfOk result (λ o. o.0 ≡ recorded_image recording.now) }
    ensures words { IfOk result (λ o. Opening (opening_words (recorded_image recording.now))
        recording.now.params.cores o.1.items) }
{
    let params = recording.params;
    let bytes = Vec::from_slice(alloc, recording.image.as_slice())?;
    let Ok(image) = Image::flat(bytes, params.words) else {
        unreachable!()
    };
    let memory = Memory::new(alloc, &image)?;
    let program = Program::new(alloc, image)?;
    let words = opening(alloc, &memory, params.words, params.cores)?;
    Ok((program, words))
}

/// The seat of a core that has done nothing, on its own part of the table's rule.
fn fresh_seat<J: Job>(
    alloc: Global,
    recording: &Recording,
    which: Which,
    program: &Program,
    id: u8,
    seat: Seat<u8, View>,
) -> Result<CoreSeat<J>, AllocError>
    requires valid { Valid J.recording }
    requires recording { recording.now ≡ J.recording }
    requires which { which ≡ J.which }
    requires program { program.now ≡ recorded_image J.recording }
    requires core { id < length J.recording.totals }
    requires seat { seat.me ≡ (first_alone (rest_view (plan_of J.which J.recording) id), []) }
    ensures table { IfOk result (λ s. s.table_id ≡ seat.table_id) }
    ensures fresh { IfOk result (λ s. IsFresh (plan_of J.which J.recording) id s) }
{
    let seen = vec![in alloc; 0u32; recording.params.cores as usize]?;
    let core = Core::new(id, recording.params.limit);
    let upcoming = Upcoming::new(recording, which, program, &core);
    Ok(CoreSeat {
        past: Past::new(alloc, core),
        upcoming,
        seen,
        held: None,
        seat,
        of: PhantomData,
    })
}

impl<'a, J: Job> ReplayTable<'a, J> {
    /// The table with the opening memory and done counts of 0, and one seat per core, in order. The
    /// recording needs no audit.
    pub fn make(
        alloc: Global,
        recording: &'a Recording,
        which: Which,
    ) -> Result<(ReplayTable<'a, J>, Vec<CoreSeat<J>>), AllocError>
        requires valid { Valid J.recording }
        requires recording { recording.now ≡ J.recording }
        requires which { which ≡ J.which }
        ensures { IfOk result (λ t. Dealt (plan_of J.which J.recording) t.0 t.1.items) }
    {
        let (program, words) = opened(alloc, recording)?;
        let (table, mut clerk) = Table::<u8, View, (), RuleOf<J>, Global>::of_words(
            alloc,
            words.as_slice(),
            &(),
        )?;
        let mut seats = Vec::new(alloc);
        for id in 0..recording.params.cores {
            let seat = table.shared.split_seat::<TakeFirst>(&mut clerk);
            seats.push(fresh_seat(alloc, recording, which, &program, id, seat)?)?;
        }
        Ok((
            ReplayTable {
                recording,
                which,
                program,
                table,
            },
            seats,
        ))
    }

    /// The done count of a core, at least what this seat has seen of it.
    pub fn seen_done(&self, seat: &mut CoreSeat<J>, core: u8) -> u32
        requires table { seat.old.table_id ≡ self.now }
        requires core { core < length J.recording.totals }
        ensures table { seat.new.table_id ≡ seat.old.table_id }
        ensures core { seat.new.core ≡ seat.old.core }
        ensures loads { seat.new.loads ≡ seat.old.loads }
        ensures touched { seat.new.touched ≡ seat.old.touched }
        ensures room { seat.new.roomy ≡ seat.old.roomy }
        ensures least { seen_of seat.old.view core ≤ result }
        ensures seen { result ≡ seen_of seat.new.view core }
        ensures polls { slice_index seat.new.view.polls core ≡ slice_index seat.old.view.polls core + 1 }
        ensures told { ToldDone (plan_of J.which J.recording) seat.old.view
            (J.recording.params.words + core) result seat.new.view }
    {
        let word = self.recording.params.words as usize + core as usize;
        let found = self
            .table
            .shared
            .load::<Told<J, SeeDone>>(&mut seat.seat, word);
        let value = found as u32;
        seat.seen[core as usize] = value;
        value
    }

    /// A local instruction retires in the seat of a ready core, without a step of the table.
    pub fn local(&self, seat: &mut CoreSeat<J>)
        requires table { seat.old.table_id ≡ self.now }
        requires ready { Due (plan_of J.which J.recording) (seen_of seat.old.view) seat.old.core }
        requires need { need (recorded_image J.recording) seat.old.core ≡ Local }
        ensures table { seat.new.table_id ≡ seat.old.table_id }
        ensures core { seat.new.core ≡ after (recorded_image J.recording) seat.old.core 0 }
        ensures room { seat.new.roomy ≡ seat.old.roomy }
        ensures view { seat.new.view ≡ seat.old.view }
    {
        seat.past.finish(self.program.image(), seat.upcoming.op, 0);
        seat.upcoming.advance(self.recording, self.which, &self.program, seat.past.core());
    }

    /// The word of a load, with which the instruction retires. Where the recording is determinate by the
    /// log, it is what this load gets in the low order.
    pub fn load_word(&self, seat: &mut CoreSeat<J>) -> u32
        requires table { seat.old.table_id ≡ self.now }
        requires ready { Due (plan_of J.which J.recording) (seen_of seat.old.view) seat.old.core }
        requires load { IsTrue (is_load (need (recorded_image J.recording) seat.old.core)) }
        requires room { IsTrue seat.old.roomy }
        ensures table { seat.new.table_id ≡ seat.old.table_id }
        ensures core { seat.new.core ≡ after (recorded_image J.recording) seat.old.core result }
        ensures told { ToldLoad (plan_of J.which J.recording) seat.old.view
            (word_of (need (recorded_image J.recording) seat.old.core)) result seat.new.view }
        ensures low { IsLowValue J.which J.recording seat.old.core result }
    {
        self.load_on(seat, 0, &OpenGate)
    }

    /// The same, and local instructions retire after it, up to this count, as long as no edge leads to them. The gate is
    /// passed before each of these.
    #[inline(always)]
    pub fn load_on<G: Gate>(&self, seat: &mut CoreSeat<J>, until: u32, gate: &G) -> u32
        requires table { seat.old.table_id ≡ self.now }
        requires ready { Due (plan_of J.which J.recording) (seen_of seat.old.view) seat.old.core }
        requires load { IsTrue (is_load (need (recorded_image J.recording) seat.old.core)) }
        requires room { IsTrue seat.old.roomy }
        requires within { until ≤ slice_index J.recording.totals seat.old.core.id }
        ensures table { seat.new.table_id ≡ seat.old.table_id }
        ensures ahead { GoesOn (plan_of J.which J.recording) (seen_of seat.old.view) until
            (after (recorded_image J.recording) seat.old.core result) seat.new.core }
        ensures told { ToldLoad (plan_of J.which J.recording) seat.old.view
            (word_of (need (recorded_image J.recording) seat.old.core)) result seat.new.view }
        ensures low { IsLowValue J.which J.recording seat.old.core result }
    {
        let used = seat.upcoming.need.access();
        let Some((_, word)) = used else {
            unreachable!()
        };
        let found = self
            .table
            .shared
            .load::<Told<J, LoadWord>>(&mut seat.seat, word as usize);
        let value = found as u32;
        seat.past
            .finish(self.program.image(), seat.upcoming.op, value);
        seat.past.note(used, value);
        seat.upcoming.run_on(
            self.recording,
            self.which,
            &self.program,
            &mut seat.past,
            until,
            gate,
        );
        value
    }

    /// The word of an access that leaves what depends on it, a store of a part of a word or an atomic
    /// memory operation. The seat then holds it.
    pub fn hold_word(&self, seat: &mut CoreSeat<J>) -> u32
        requires table { seat.old.table_id ≡ self.now }
        requires ready { Due (plan_of J.which J.recording) (seen_of seat.old.view) seat.old.core }
        requires change { IsTrue (is_change (need (recorded_image J.recording) seat.old.core)) }
        ensures table { seat.new.table_id ≡ seat.old.table_id }
        ensures core { seat.new.core ≡ seat.old.core }
        ensures loads { seat.new.loads ≡ seat.old.loads }
        ensures touched { seat.new.touched ≡ seat.old.touched }
        ensures room { seat.new.roomy ≡ seat.old.roomy }
        ensures told { ToldHold (plan_of J.which J.recording) seat.old.view
            (word_of (need (recorded_image J.recording) seat.old.core)) result seat.new.view }
    {
        let Some((_, word)) = seat.upcoming.need.access() else {
            unreachable!()
        };
        let found = self
            .table
            .shared
            .load::<Told<J, HoldWord>>(&mut seat.seat, word as usize);
        let value = found as u32;
        seat.held = Some(value);
        value
    }

    /// The value after is stored and the instruction retires. Raced comes exactly where it isn't a store of
    /// a whole word and the word isn't the held one any more: then nothing is stored, nothing retires and
    /// nothing is held. It never comes where the recording is determinate by the log.
    pub fn store_word(&self, seat: &mut CoreSeat<J>) -> Result<(), Raced>
        requires table { seat.old.table_id ≡ self.now }
        requires ready { Due (plan_of J.which J.recording) (seen_of seat.old.view) seat.old.core }
        requires write { IsTrue (is_writing (need (recorded_image J.recording) seat.old.core)) }
        requires held { is_whole (need (recorded_image J.recording) seat.old.core) ≡ false → IsSome seat.old.view.held }
        requires room { IsTrue seat.old.roomy }
        ensures table { seat.new.table_id ≡ seat.old.table_id }
        ensures whole { IsTrue (is_whole (need (recorded_image J.recording) seat.old.core)) →
            (result ≡ Ok tt)
            × (seat.new.core ≡ after (recorded_image J.recording) seat.old.core 0)
            × ToldStore (plan_of J.which J.recording) seat.old.view
            (word_of (need (recorded_image J.recording) seat.old.core))
            (wrote (recorded_image J.recording) seat.old.core 0) seat.new.view }
        ensures change { is_whole (need (recorded_image J.recording) seat.old.core) ≡ false → (held : ℕ) →
            seat.old.view.held ≡ Some held → Exchanged (plan_of J.which J.recording) seat.old held result seat.new }
        ensures sure { IsDeterminate J.which J.recording → result ≡ Ok tt }
        ensures low { IsTrue (is_reading (need (recorded_image J.recording) seat.old.core)) → (held : ℕ) →
            seat.old.view.held ≡ Some held → IsLowValue J.which J.recording seat.old.core held }
    {
        if seat.upcoming.need.is_whole() {
            self.store_whole(seat);
            return Ok(());
        }
        self.exchange(seat)
    }

    /// The core's done word becomes the core's count, and the view executes the local instructions up to it.
    pub fn publish(&self, seat: &mut CoreSeat<J>)
        requires table { seat.old.table_id ≡ self.now }
        ensures table { seat.new.table_id ≡ seat.old.table_id }
        ensures core { seat.new.core ≡ seat.old.core }
        ensures room { seat.new.roomy ≡ seat.old.roomy }
        ensures told { ToldPublish (plan_of J.which J.recording) seat.old.view
            (J.recording.params.words + seat.old.core.id) seat.old.core.count seat.new.view }
        ensures rest { AtRest seat.new }
    {
        let core = seat.past.core();
        let word = self.recording.params.words as usize + core.id() as usize;
        let count = core.count();
        self.table
            .shared
            .store::<Told<J, PublishCount>>(&mut seat.seat, word, count as u64);
    }
}

// The two ways to store.
impl<'a, J: Job> ReplayTable<'a, J> {
    /// A whole word is stored and the instruction retires, and local ones after it, up to this count, as long as no edge
    /// leads to them. The gate is passed before each of these.
    #[inline(always)]
    pub fn store_on<G: Gate>(&self, seat: &mut CoreSeat<J>, until: u32, gate: &G)
        requires table { seat.old.table_id ≡ self.now }
        requires ready { Due (plan_of J.which J.recording) (seen_of seat.old.view) seat.old.core }
        requires write { IsTrue (is_writing (need (recorded_image J.recording) seat.old.core)) }
        requires whole { IsTrue (is_whole (need (recorded_image J.recording) seat.old.core)) }
        requires room { IsTrue seat.old.roomy }
        requires within { until ≤ slice_index J.recording.totals seat.old.core.id }
        ensures table { seat.new.table_id ≡ seat.old.table_id }
        ensures ahead { GoesOn (plan_of J.which J.recording) (seen_of seat.old.view) until
            (after (recorded_image J.recording) seat.old.core 0) seat.new.core }
        ensures told { ToldStore (plan_of J.which J.recording) seat.old.view
            (word_of (need (recorded_image J.recording) seat.old.core))
            (wrote (recorded_image J.recording) seat.old.core 0) seat.new.view }
    {
        let used = seat.upcoming.need.access();
        let Some((_, word)) = used else {
            unreachable!()
        };
        let value = seat.past.finish(self.program.image(), seat.upcoming.op, 0);
        self.table
            .shared
            .store::<Told<J, StoreWord>>(&mut seat.seat, word as usize, value as u64);
        seat.past.note(used, 0);
        seat.upcoming.run_on(
            self.recording,
            self.which,
            &self.program,
            &mut seat.past,
            until,
            gate,
        );
    }

    fn store_whole(&self, seat: &mut CoreSeat<J>)
        requires table { seat.old.table_id ≡ self.now }
        requires ready { Due (plan_of J.which J.recording) (seen_of seat.old.view) seat.old.core }
        requires write { IsTrue (is_writing (need (recorded_image J.recording) seat.old.core)) }
        requires whole { IsTrue (is_whole (need (recorded_image J.recording) seat.old.core)) }
        requires room { IsTrue seat.old.roomy }
        ensures table { seat.new.table_id ≡ seat.old.table_id }
        ensures core { seat.new.core ≡ after (recorded_image J.recording) seat.old.core 0 }
        ensures told { ToldStore (plan_of J.which J.recording) seat.old.view
            (word_of (need (recorded_image J.recording) seat.old.core))
            (wrote (recorded_image J.recording) seat.old.core 0) seat.new.view }
    {
        self.store_on(seat, 0, &OpenGate);
    }

    fn exchange(&self, seat: &mut CoreSeat<J>) -> Result<(), Raced>
        requires table { seat.old.table_id ≡ self.now }
        requires ready { Due (plan_of J.which J.recording) (seen_of seat.old.view) seat.old.core }
        requires change { IsTrue (is_change (need (recorded_image J.recording) seat.old.core)) }
        requires held { IsSome seat.old.view.held }
        requires room { IsTrue seat.old.roomy }
        ensures table { seat.new.table_id ≡ seat.old.table_id }
        ensures step { (held : ℕ) → seat.old.view.held ≡ Some held →
            Exchanged (plan_of J.which J.recording) seat.old held result seat.new }
        ensures sure { IsDeterminate J.which J.recording → result ≡ Ok tt }
        ensures low { IsTrue (is_reading (need (recorded_image J.recording) seat.old.core)) → (held : ℕ) →
            seat.old.view.held ≡ Some held → IsLowValue J.which J.recording seat.old.core held }
    {
        let mut next = *seat.past.core();
        let used = seat.upcoming.need.access();
        let Some((_, word)) = used else {
            unreachable!()
        };
        let Some(held) = seat.held else {
            unreachable!()
        };
        let value = next.finish_op(self.program.image(), seat.upcoming.op, held);
        let found = self
            .table
            .shared
            .compare_exchange::<Told<J, ExchangeWord>>(
                &mut seat.seat,
                word as usize,
                held as u64,
                value as u64,
            );
        seat.held = None;
        if found == held as u64 {
            seat.past.go_on(next);
            seat.past.note(used, held);
            seat.upcoming
                .advance(self.recording, self.which, &self.program, &next);
            return Ok(());
        }
        Err(Raced {
            held,
            found: found as u32,
        })
    }
}
