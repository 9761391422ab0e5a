//! Closing the table.
ghost use Rattle.std.specs.Prelude.{◌≡◌, ◌<◌, ◌≤◌, ◌^◌, ◌+◌, ℕ, [], length, slice_index, vec_capacity};
ghost use Rattle.std.specs.Prelude.{IfErr, IfOk, None as NoneHeld};
ghost use Rattle.std.specs.Slots.{slots_items, slots_len, IsFull};
ghost use Rattle.replay_core.specs.Plans.{plan_of};
ghost use Rattle.replay_table.specs.Faults.{AreBack};
ghost use Rattle.replay_table.specs.Seats.{Adds, AllAt, AllEnded, Finished, Gathered, HasRoom, IsEnd};

use crate::closed::Closed;
use crate::job::Job;
use crate::parts::Parts;
use crate::rules::{RuleOf, TakeIn};
use crate::seat::CoreSeat;
use crate::table::ReplayTable;
use crate::view::View;
use atomic_table::{Seat, Table};
use rtr_types::Items;
use rv_core::Outcome;
use std::alloc::Global;

/// Why the table wasn't closed.
#[derive(Drop)]
pub enum CloseFault<'a, J: Job> {
    /// Memory ran out: the table and its seats, as they were.
    OutOfMemory {
        table: ReplayTable<'a, J>,
        seats: Vec<CoreSeat<J>>,
    },
}

impl<'a, J: Job> ReplayTable<'a, J> {
    /// Closes the table with all its seats, in the order of their cores and each published at its core's
    /// total: what the play of a whole replay order leaves, and by core its accesses. Memory is taken first,
    /// and want of it is the only refusal: it hands back the table and the seats as they were.
    pub fn close(self, alloc: Global, seats: Vec<CoreSeat<J>>) -> Result<Closed, CloseFault<'a, J>>
        requires { Finished (plan_of J.which J.recording) self seats.items }
        ensures ok { IfOk result (λ closed. IsEnd (plan_of J.which J.recording) closed) }
        ensures err { IfErr result (AreBack self.entry seats.items) }
    {
        let Ok(parts) = Parts::new(alloc, seats.len()) else {
            return Err(CloseFault::OutOfMemory { table: self, seats });
        };
        let Ok(words) = Vec::with_capacity(alloc, self.recording.params.words as usize) else {
            return Err(CloseFault::OutOfMemory { table: self, seats });
        };
        Ok(self.finish(parts, words, seats))
    }

    fn finish(self, mut parts: Parts, words: Vec<u32>, mut seats: Vec<CoreSeat<J>>) -> Closed
        requires seats { Finished (plan_of J.which J.recording) self seats.items }
        requires parts { HasRoom parts (length seats.items) }
        requires words { (words.items ≡ []) × (J.recording.params.words ≤ vec_capacity words) }
        ensures { IsEnd (plan_of J.which J.recording) result }
    {
        let ReplayTable {
            recording,
            which: _,
            program: _,
            table,
        } = self;
        let Some(last) = seats.pop() else {
            unreachable!()
        };
        let CoreSeat {
            past,
            upcoming: _,
            seen: _,
            held: _,
            seat: mut all,
            of: _,
        } = last;
        parts.put(past);
        gather(&table, &mut all, &mut parts, seats);
        let closed = table.close_with(all);
        let words = read_words(&closed, recording.params.words as usize, words);
        closed.free();
        let (cores, loads, touched) = parts.into_items();
        Closed {
            outcome: Outcome {
                cores,
                words: Items::from_vec(words),
                loads,
            },
            touched,
        }
    }
}

/// Takes in the views of all seats, and what their cores have done.
fn gather<J: Job>(
    table: &Table<u8, View, (), RuleOf<J>, Global>,
    all: &mut Seat<u8, View>,
    parts: &mut Parts,
    mut seats: Vec<CoreSeat<J>>,
)
    requires words { 0 < table.now.shared.table_id.words }
    requires all { (all.old.table_id ≡ table.now.shared.table_id) × (all.old.me.1 ≡ []) }
    requires held { all.old.me.0.held ≡ NoneHeld }
    requires seats { AllAt table.now.shared.table_id seats.items }
    requires ended { AllEnded (plan_of J.which J.recording) seats.items }
    requires room { length parts.old.cores + length seats.items ≤ parts.old.room }
    ensures all { (all.new.table_id ≡ all.old.table_id) × (all.new.me.1 ≡ []) }
    ensures gathered { Gathered all.old.me.0 seats.items all.new.me.0 }
    ensures parts { Adds seats.items parts.old parts.new }
{
    while let Some(seat) = seats.pop() {
        let CoreSeat {
            past,
            upcoming: _,
            seen: _,
            held: _,
            seat,
            of: _,
        } = seat;
        parts.put(past);
        table.shared.join_seat::<TakeIn>(all, seat);
    }
}

/// The first words of the table.
fn read_words(
    closed: &atomic_table::Closed<u8, Global>,
    count: usize,
    mut words: Vec<u32>,
) -> Vec<u32>
    requires full { IsFull closed.now.words × (count ≤ slots_len closed.now.words) }
    requires fits { (i : ℕ) → slice_index (slots_items closed.now.words) i < 2 ^ 32 }
    requires room { (words.items ≡ []) × (count ≤ vec_capacity words) }
    ensures length { length result.items ≡ count }
    ensures same { (i : ℕ) → i < count → slice_index result.items i ≡ slice_index (slots_items closed.now.words) i }
{
    for word in 0..count {
        words.push_reserved(closed.word(word) as u32);
    }
    words
}
