//! The seat of a core.
ghost use Rattle.std.specs.Prelude.{◌≡◌, ◌<◌, ◌≤◌, IfNone, IfSome, IsTrue, OnOk, length, slice_index};
ghost use Rattle.rv_core.specs.Steps.{need};
ghost use Rattle.replay_core.specs.Plans.{plan_of, recorded_image};
ghost use Rattle.replay_table.specs.Aheads.{Due};
ghost use Rattle.replay_table.specs.Rule.{seen_of};
ghost use Rattle.replay_table.specs.Seats.{IsUnmet};

use crate::job::Job;
use crate::past::Past;
use crate::upcoming::Upcoming;
use crate::view::View;
use atomic_table::Seat;
use rtr_types::Instr;
use rv_core::{Core, Need};
use std::alloc::AllocError;
use std::marker::{Model, PhantomData};

/// A core with its accesses and the words that its loads and atomic memory operations got, what the seat
/// has seen of each core's done count, and the word that it holds. What the core's next instruction needs
/// and its logged sources are kept from call to call.
#[derive(Drop)]
pub struct CoreSeat<J: Job> {
    pub(crate) past: Past,
    pub(crate) upcoming: Upcoming,
    pub(crate) seen: Vec<u32>,
    pub(crate) held: Option<u32>,
    pub(crate) seat: Seat<u8, View>,
    pub(crate) of: PhantomData<J>,
}

impl<J: Job> Model for CoreSeat<J> {
    ghost use Rattle.std.specs.Prelude.{◌≡◌, []};
    ghost use Rattle.replay_table.specs.Seats.{Sitting, SeatHolds, sitting};

    ghost Value = { Sitting };

    ghost view = { λ s. sitting s.seat.table_id s.past s.seat.me.0 };

    ghost invariant = { λ s. (s.seat.me.1 ≡ [])
        × SeatHolds J.which J.recording s.past s.upcoming s.seen.items s.held s.seat.me.0 };
}

impl<J: Job> CoreSeat<J> {
    /// The core.
    pub fn core(&self) -> &Core
        ensures core { result.now ≡ self.now.core }
        ensures inside { self.now.core.id < length J.recording.totals }
        ensures within { self.now.core.count ≤ slice_index J.recording.totals self.now.core.id }
    {
        self.past.core()
    }

    /// What the core's next instruction needs.
    pub fn need(&self) -> Need
        ensures { result ≡ need (recorded_image J.recording) self.now.core }
    {
        self.upcoming.need
    }

    /// A logged source of the core's next instruction that this seat hasn't seen, on the lowest core that
    /// has one. Without one the seat is ready.
    pub fn unmet(&self) -> Option<Instr>
        requires below { self.now.core.count < slice_index J.recording.totals self.now.core.id }
        ensures none { IfNone result (Due (plan_of J.which J.recording) (seen_of self.now.view) self.now.core) }
        ensures some { IfSome result (IsUnmet J.which J.recording self.now.view self.now.core) }
    {
        let Some(sources) = &self.upcoming.sources else {
            return None;
        };
        for of in 0..self.seen.len() as u8 {
            let count = sources.get(of);
            if self.seen[of as usize] < count {
                return Some(Instr { core: of, count });
            }
        }
        None
    }

    /// What this seat has seen of a core's done count.
    pub fn seen(&self, core: u8) -> u32
        requires { core < length J.recording.totals }
        ensures { result ≡ seen_of self.now.view core }
    {
        self.seen[core as usize]
    }

    /// The value of the word that is held.
    pub fn held(&self) -> Option<u32>
        ensures { result ≡ self.now.view.held }
    {
        self.held
    }

    /// Whether there is room for one access more.
    pub fn has_room(&self) -> bool
        ensures { result ≡ self.now.roomy }
    {
        self.past.has_room()
    }

    /// Makes room for one access more. After want of memory the seat is as it was.
    pub fn make_room(&mut self) -> Result<(), AllocError>
        ensures table { self.new.table_id ≡ self.old.table_id }
        ensures core { self.new.core ≡ self.old.core }
        ensures loads { self.new.loads ≡ self.old.loads }
        ensures touched { self.new.touched ≡ self.old.touched }
        ensures view { self.new.view ≡ self.old.view }
        ensures room { OnOk result (IsTrue self.new.roomy) }
    {
        self.past.make_room()
    }
}
