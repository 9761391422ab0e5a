//! What the instructions of each core read.
ghost use Rattle.std.specs.Prelude.{◌≡◌, ◌<◌, [], IfOk, IsTrue, OnOk, length, replicate};
ghost use Rattle.roomy_lists.specs.Lists.{with_item};

use roomy_lists::RoomyLists;
use rtr_types::Items;
use rv_core::LoadNote;
use std::alloc::{AllocError, Global};
use std::marker::Model;

/// What each core's loads and atomic memory operations read: a list for each core, core 0 first, oldest
/// first. Contracts see the lists, and whether there is room for one more note of each core.
#[derive(Drop)]
pub struct LoadLists {
    notes: RoomyLists<LoadNote>,
}

impl Model for LoadLists {
    ghost use Rattle.load_lists.specs.Lists.{LoadRooms, seen_as};

    ghost Value = { LoadRooms };

    ghost view = { λ a. seen_as a.notes };
}

impl LoadLists {
    /// So many empty lists.
    pub fn new(alloc: Global, cores: u8) -> Result<LoadLists, AllocError>
        ensures { IfOk result (λ loads. loads.lists ≡ replicate cores []) }
    {
        let notes = RoomyLists::new(alloc, cores as usize)?;
        Ok(LoadLists { notes })
    }

    /// Makes room for one more note of each core, so that `note` needs no memory. After want of memory
    /// some lists may have got room; the notes are as they were.
    pub fn make_room(&mut self) -> Result<(), AllocError>
        ensures lists { self.new.lists ≡ self.old.lists }
        ensures roomy { OnOk result (IsTrue self.new.roomy) }
    {
        self.notes.make_room()
    }

    /// Whether there is room for one more note of each core.
    pub fn has_room(&self) -> bool
        ensures { result ≡ self.now.roomy }
    {
        self.notes.has_room()
    }

    /// Puts a note at the end of its core's list.
    pub fn note(&mut self, core: u8, note: LoadNote)
        requires core { core < length self.old.lists }
        requires room { IsTrue self.old.roomy }
        ensures { self.new.lists ≡ with_item self.old.lists core note }
    {
        self.notes.push(core as usize, note);
    }

    /// The lists. It takes no memory.
    pub fn into_items(self) -> Items<Items<LoadNote>>
        ensures { result ≡ self.lists }
    {
        let LoadLists { notes } = self;
        notes.into_items()
    }
}
