//! One list.
ghost use Rattle.std.specs.Prelude.{◌≡◌, ◌<◌, ◌-◌, ◌++◌, [], ◌∷◌, IsTrue, OnOk, length, slice_set};

use rtr_types::Items;
use std::alloc::{AllocError, Global};
use std::marker::Model;

/// A list, oldest item first, and whether there is room for one more item.
#[derive(Drop)]
pub(crate) struct RoomyList<T> {
    items: Vec<T>,
}

impl<T> Model for RoomyList<T> {
    ghost use Rattle.std.specs.Prelude.{nat_lt, vec_capacity, vec_len};
    ghost use Rattle.roomy_lists.specs.Lists.{Listed};

    ghost Value = { Listed T };

    ghost view = { λ a. record { items = a.items.items; ready = nat_lt (vec_len a.items) (vec_capacity a.items) } };
}

impl<T> RoomyList<T> {
    /// The empty list. It takes no memory.
    pub(crate) fn new(alloc: Global) -> RoomyList<T>
        ensures { result.items ≡ [] }
    {
        RoomyList {
            items: Vec::new(alloc),
        }
    }

    /// Whether there is room for one more item.
    pub(crate) fn has_room(&self) -> bool
        ensures { result ≡ self.now.ready }
    {
        self.items.len() < self.items.capacity()
    }

    /// Makes room for one more item.
    pub(crate) fn make_room(&mut self) -> Result<(), AllocError>
        ensures items { self.new.items ≡ self.old.items }
        ensures ready { OnOk result (IsTrue self.new.ready) }
    {
        self.items.reserve(1)
    }

    /// The items, oldest first.
    pub(crate) fn as_slice(&self) -> &[T]
        ensures { result.now ≡ self.now.items }
    {
        self.items.as_slice()
    }

    /// Puts the item at the end, and answers whether there is room for one more.
    pub(crate) fn push(&mut self, item: T) -> bool
        requires { IsTrue self.old.ready }
        ensures items { self.new.items ≡ self.old.items ++ item ∷ [] }
        ensures ready { result ≡ self.new.ready }
    {
        self.items.push_reserved(item);
        self.has_room()
    }

    /// The items, without taking memory.
    pub(crate) fn into_items(self) -> Items<T>
        ensures { result ≡ self.items }
    {
        let RoomyList { items } = self;
        Items::from_vec(items)
    }
}

impl<T: Drop> RoomyList<T> {
    /// Puts the item in the place of the newest one.
    pub(crate) fn set_last(&mut self, item: T)
        requires { 0 < length self.old.items }
        ensures items { self.new.items ≡ slice_set self.old.items (length self.old.items - 1) item }
        ensures ready { self.new.ready ≡ self.old.ready }
    {
        let newest = self.items.len() - 1;
        self.items[newest] = item;
    }
}
