//! What each core knew at each of its retirements.
ghost use Rattle.std.specs.Prelude.{◌≡◌, ◌≢◌, ◌<◌, ◌≤◌, ◌+◌, IfOk, IsTrue, OnOk};
ghost use Rattle.rtr_types.specs.declared.TheConstants.{CORES_MAX};
ghost use Rattle.know_history.specs.Changes.{no_newest};
ghost use Rattle.know_history.specs.Notes.{IsNoted, change_count, core_count, known_at, no_notes, noted_count};

use crate::changes::{Change, known_by, list_place, put_down};
use crate::known::Known;
use clock_core::Clock;
use roomy_lists::RoomyLists;
use rtr_types::{CORES_MAX, Instr};
use std::alloc::{AllocError, Global};
use std::marker::Model;

/// A core's last retirement that was noted: its count, 0 where there is none, and how many instructions of
/// each other core are known.
#[derive(Clone, Copy, Debug)]
pub(crate) struct Newest {
    count: u32,
    known: Clock,
}

impl Newest {
    /// No retirement is noted.
    fn none() -> Newest
        ensures { result ≡ no_newest }
    {
        Newest {
            count: 0,
            known: Clock::zero(),
        }
    }
}

/// For each core and each of its retirements how many instructions of each other core were known at it. It
/// keeps the counts at which more was known than before, so that a search answers, and a core that is told
/// nothing new takes no room. Contracts see what was noted at each retirement, and whether there is room for
/// one more retirement of each core.
#[derive(Drop)]
pub struct History {
    newest: Vec<Newest>,
    /// For each core a list for each core that may be known of, oldest change first.
    changes: RoomyLists<Change>,
}

impl Model for History {
    ghost use Rattle.roomy_lists.specs.Lists.{are_ready, items_in};
    ghost use Rattle.know_history.specs.Changes.{HoldNotes, notes_of};
    ghost use Rattle.know_history.specs.Notes.{NotesReady};

    ghost Value = { NotesReady };

    ghost view = { λ a. record { notes = notes_of a.newest.items (items_in a.changes); ready = are_ready a.changes } };

    ghost invariant = { λ a. HoldNotes a.newest.items (items_in a.changes) };
}

impl History {
    /// No retirement of so many cores is noted.
    pub fn new(alloc: Global, cores: u8) -> Result<History, AllocError>
        ensures { IfOk result (λ history. history.notes ≡ no_notes cores) }
    {
        let mut newest = Vec::with_capacity(alloc, cores as usize)?;
        for core in 0..cores {
            newest.push(Newest::none())?;
        }
        let changes = RoomyLists::new(alloc, cores as usize * CORES_MAX as usize)?;
        Ok(History { newest, changes })
    }

    /// Whether there is room for one more retirement of each core.
    pub fn is_ready(&self) -> bool
        ensures { result ≡ self.now.ready }
    {
        self.changes.has_room()
    }

    /// Makes room for one more retirement of each core, so that `note` needs no memory. After want of memory
    /// some cores may have got room; what was noted is as it was.
    pub fn ready(&mut self) -> Result<(), AllocError>
        ensures notes { self.new.notes ≡ self.old.notes }
        ensures ready { OnOk result (IsTrue self.new.ready) }
    {
        self.changes.make_room()
    }

    /// Notes a core's next retirement: of each core the greater of the count that is known and the one noted
    /// last.
    pub fn note(&mut self, at: Instr, known: &Known)
        requires core { at.core < core_count self.old.notes }
        requires next { at.count ≡ noted_count self.old.notes at.core + 1 }
        requires ready { IsTrue self.old.ready }
        ensures { IsNoted self.old.notes at known.now self.new.notes }
    {
        let newest = &mut self.newest[at.core as usize];
        newest.count = at.count;
        put_down(&mut self.changes, &mut newest.known, at, known);
    }

    /// How many instructions of core `of` were known at the core's retirement with this count.
    pub fn at(&self, core: u8, count: u32, of: u8) -> u32
        requires core { core < core_count self.now.notes }
        requires some { 1 ≤ count }
        requires noted { count ≤ noted_count self.now.notes core }
        requires place { of < CORES_MAX }
        requires other { of ≢ core }
        ensures { result ≡ known_at self.now.notes core count of }
    {
        known_by(self.changes.list(list_place(core, of)), count)
    }

    /// At how many of the core's noted retirements more instructions of core `of` were known than at the one
    /// before, and at the first more than none.
    pub fn changes(&self, core: u8, of: u8) -> u32
        requires core { core < core_count self.now.notes }
        requires place { of < CORES_MAX }
        requires other { of ≢ core }
        ensures { result ≡ change_count self.now.notes core of }
    {
        let changes = self.changes.list(list_place(core, of)).len();
        let noted = self.newest[core as usize].count;
        prove!(changes <= noted as usize);
        changes as u32
    }
}
