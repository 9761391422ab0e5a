//! Several lists.
ghost use Rattle.std.specs.Prelude.{◌≡◌, ◌≢◌, ◌<◌, [], ℕ, IfOk, IsTrue, OnOk, length, replicate};
ghost use Rattle.roomy_lists.specs.Lists.{are_ready, is_ready_at, items_at, items_in, with_item, with_newest};

use crate::one_list::RoomyList;
use rtr_types::Items;
use std::alloc::{AllocError, Global};
use std::marker::Model;

/// Lists of items, of which each may take its room beforehand. Contracts see of each list its items, oldest
/// first, and whether it has room for one more.
#[derive(Drop)]
pub struct RoomyLists<T> {
    lists: Vec<RoomyList<T>>,
    /// Empty, with room for all lists, so that they are handed out without taking memory.
    finished: Vec<Items<T>>,
    /// Set only where each list has room for one more item, so that this is looked up once and not at each
    /// step of a run.
    known_ready: bool,
    /// The place of the one list that may lack room while all others have it; past the lists' end where no place is
    /// known to be so.
    full: usize,
}

impl<T> Model for RoomyLists<T> {
    ghost use Rattle.std.specs.Prelude.{◌≡◌, ◌≤◌, IsTrue, List, vec_capacity, vec_len};
    ghost use Rattle.roomy_lists.specs.Lists.{Listed, OthersReady, are_ready};

    ghost Value = { List (Listed T) };

    ghost view = { λ a. a.lists.items };

    ghost invariant = { λ a. (vec_len a.finished ≡ 0) × (vec_len a.lists ≤ vec_capacity a.finished)
        × (IsTrue a.known_ready → IsTrue (are_ready a.lists.items)) × OthersReady a.lists.items a.full };
}

impl<T: Drop> RoomyLists<T> {
    /// So many empty lists.
    pub fn new(alloc: Global, count: usize) -> Result<RoomyLists<T>, AllocError>
        ensures { IfOk result (λ all. items_in all ≡ replicate count []) }
    {
        let mut lists = Vec::with_capacity(alloc, count)?;
        for place in 0..count {
            lists.push(RoomyList::new(alloc))?;
        }
        let finished = Vec::with_capacity(alloc, count)?;
        Ok(RoomyLists {
            lists,
            finished,
            known_ready: false,
            full: count,
        })
    }

    /// How many lists there are.
    pub fn count(&self) -> usize
        ensures { result ≡ length self.now }
    {
        self.lists.len()
    }

    /// Makes room for one more item in each list, so that `push` needs no memory. After want of memory some
    /// lists may have got room; the items are as they were.
    pub fn make_room(&mut self) -> Result<(), AllocError>
        ensures items { items_in self.new ≡ items_in self.old }
        ensures ready { OnOk result (IsTrue (are_ready self.new)) }
    {
        if self.known_ready {
            return Ok(());
        }
        self.make_missing()
    }

    /// Makes room where it may be missing. It stands apart, so that `make_room` is small.
    #[inline(never)]
    fn make_missing(&mut self) -> Result<(), AllocError>
        ensures items { items_in self.new ≡ items_in self.old }
        ensures ready { OnOk result (IsTrue (are_ready self.new)) }
    {
        self.known_ready = false;
        if self.full < self.lists.len() {
            self.lists[self.full].make_room()?;
            self.known_ready = true;
            return Ok(());
        }
        for place in 0..self.lists.len() {
            self.lists[place].make_room()?;
        }
        self.known_ready = true;
        Ok(())
    }

    /// Whether each list has room for one more item.
    pub fn has_room(&self) -> bool
        ensures { result ≡ are_ready self.now }
    {
        self.known_ready || self.has_missing()
    }

    /// Whether each list has room, where that isn't known. It stands apart, so that `has_room` is small.
    #[inline(never)]
    fn has_missing(&self) -> bool
        ensures { result ≡ are_ready self.now }
    {
        if self.full < self.lists.len() {
            return self.lists[self.full].has_room();
        }
        for list in &self.lists {
            if !list.has_room() {
                return false;
            }
        }
        true
    }

    /// Whether the list at this place has room for one more item.
    pub fn has_room_at(&self, place: usize) -> bool
        requires { place < length self.now }
        ensures { result ≡ is_ready_at self.now place }
    {
        self.lists[place].has_room()
    }

    /// The items of the list at this place, oldest first.
    pub fn list(&self, place: usize) -> &[T]
        requires { place < length self.now }
        ensures { result.now ≡ items_at self.now place }
    {
        self.lists[place].as_slice()
    }

    /// Puts the item at the end of the list at this place.
    pub fn push(&mut self, place: usize, item: T)
        requires place { place < length self.old }
        requires room { IsTrue (is_ready_at self.old place) }
        ensures items { items_in self.new ≡ with_item (items_in self.old) place item }
        ensures others { (other : ℕ) → other ≢ place → is_ready_at self.new other ≡ is_ready_at self.old other }
    {
        let ready = self.lists[place].push(item);
        if !ready {
            let only = self.known_ready || self.full == place;
            self.full = if only { place } else { self.lists.len() };
            self.known_ready = false;
        }
    }

    /// Puts the item in the place of the newest one of the list at this place.
    pub fn set_last(&mut self, place: usize, item: T)
        requires place { place < length self.old }
        requires some { 0 < length (items_at self.old place) }
        ensures items { items_in self.new ≡ with_newest (items_in self.old) place item }
        ensures ready { (other : ℕ) → is_ready_at self.new other ≡ is_ready_at self.old other }
    {
        self.lists[place].set_last(item);
    }

    /// The lists. It takes no memory.
    pub fn into_items(self) -> Items<Items<T>>
        ensures { result ≡ items_in self }
    {
        let RoomyLists {
            lists,
            mut finished,
            ..
        } = self;
        for list in lists {
            finished.push_reserved(list.into_items());
        }
        Items::from_vec(finished)
    }
}
