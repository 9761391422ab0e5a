//! Ordered links of bounded length between the actors of the machine: queues whose places are lent.
//!
//! A link is a ring of places, each of which holds a value at all times (`Blank`). A sender writes an item where it
//! lies, and a receiver reads it where it lies, so no message is moved.
//!
//! Proved: a link is a list of bounded length, oldest first (`push`, `pop`). A place that is lent ends as the newest
//! item (`push_place`), and the oldest item can be lent (`head`).
#![tactic(auto)]

ghost use Rattle.std.specs.Prelude.{◌≡◌, ◌≤◌, ◌↔◌, ◌++◌, ◌∷◌, ◌+◌, ◌<◌, ◌⊎◌, drop, [], List, length, IfOk, IfErr};
ghost use Rattle.std.specs.Prelude.{IfSome, OnOk, IsErr, MatchOption};
ghost use Rattle.std.specs.Borrow.{sem};
ghost use Rattle.link_order.specs.Queue.{is_nil};
ghost use Rattle.link_order.specs.Lent.{LendsHead, LendsPlace};

use std::alloc::{AllocError, Global};
use std::marker::Model;
use std::mem;

/// The link had no room. It has the item that was to be pushed.
#[derive(Drop)]
pub struct Full<T>(pub T);

/// What can lie in a place of a link to which no item came yet.
pub trait Blank {
    /// Such a value, with the memory that it takes.
    fn blank(alloc: Global) -> Result<Self, AllocError>;
}

/// A queue with a capacity, oldest item first. All its room is taken when it is made.
///
/// Its places are a ring, and each holds a value at all times: an item may be written where it lies,
/// and dropped where it lies.
#[derive(Drop)]
pub struct Link<T> {
    capacity: u32,
    slots: Vec<T>,
    // the place of the oldest item and the one behind the newest, which are 0 where there is no place
    first: u32,
    next: u32,
    count: u32,
}

impl<T> Model for Link<T> {
    ghost use Rattle.std.specs.Prelude.{◌≡◌, ◌≤◌, ◌+◌, ◌-◌, ◌⊎◌, length};
    ghost use Rattle.link_order.specs.Queue.{Queue, around};

    ghost Value = { Queue T };

    ghost view = { λ a. record { room = a.capacity; items = around a.slots.items a.first a.count } };

    ghost invariant = { λ a. (length a.slots.items ≡ a.capacity) × (a.count ≤ a.capacity)
        × (a.first ≤ a.capacity - 1) × (a.next ≤ a.capacity - 1)
        × ((a.next ≡ a.first + a.count) ⊎ (a.next + a.capacity ≡ a.first + a.count)) };
}

/// The place behind place `first` in a ring of `capacity` places.
fn place_behind(first: u32, capacity: u32) -> u32
    requires first { first < capacity }
    ensures within { result < capacity }
    ensures round { (result ≡ first + 1) ⊎ (result + capacity ≡ first + 1) }
{
    let behind = first + 1;
    if behind == capacity { 0 } else { behind }
}

impl<T> Link<T> {
    /// The empty link over these places.
    #[tactic(auto, using(crate::proofs::Rings::around_none))]
    fn over(capacity: u32, slots: Vec<T>) -> Link<T>
        requires { length slots.items ≡ capacity }
        ensures { result ≡ record { room = capacity; items = [] } }
    {
        Link {
            capacity,
            slots,
            first: 0,
            next: 0,
            count: 0,
        }
    }
}

impl<T: Drop + Default> Link<T> {
    /// An empty link with room for `capacity` items. Until the first item comes to a place, the place
    /// holds the type's default value.
    pub fn new(alloc: Global, capacity: u32) -> Result<Link<T>, AllocError>
        ensures { IfOk result (λ link. link ≡ record { room = capacity; items = [] }) }
    {
        let mut slots = Vec::with_capacity(alloc, capacity as usize)?;
        for made in 0..capacity {
            slots.push(T::default())?;
        }
        Ok(Link::over(capacity, slots))
    }

    /// Puts the item behind all others. Where the link is full it stays as it was, and the item comes
    /// back.
    #[tactic(auto, using(crate::proofs::Rings::length_around, crate::proofs::Rings::around_write))]
    pub fn push(&mut self, item: T) -> Result<(), Full<T>>
        ensures room { self.new.room ≡ self.old.room }
        ensures full { IsErr result ↔ (length self.old.items ≡ self.old.room) }
        ensures pushed { OnOk result (self.new.items ≡ self.old.items ++ item ∷ []) }
        ensures handed_back { IfErr result (λ full. (full.0 ≡ item) × (self.new.items ≡ self.old.items)) }
    {
        if self.count == self.capacity {
            return Err(Full(item));
        }
        let place = self.next;
        self.slots[place as usize] = item;
        self.next = place_behind(place, self.capacity);
        self.count += 1;
        Ok(())
    }

    /// Takes the oldest item out: none where the link is empty.
    #[tactic(auto, using(crate::proofs::Rings::around_none, crate::proofs::Rings::around_taken))]
    pub fn pop(&mut self) -> Option<T>
        ensures room { self.new.room ≡ self.old.room }
        ensures item { MatchOption result ((self.old.items ≡ []) × (self.new.items ≡ [])) (λ item. self.old.items
            ≡ item ∷ self.new.items) }
    {
        if self.count == 0 {
            return None;
        }
        let oldest = self.first;
        self.first = place_behind(oldest, self.capacity);
        self.count -= 1;
        Some(mem::take(&mut self.slots[oldest as usize]))
    }
}

impl<T: Drop + Blank> Link<T> {
    /// An empty link with room for `capacity` items, as `new` makes it. Until the first item comes to a place, the
    /// place holds a blank.
    pub fn of_blanks(alloc: Global, capacity: u32) -> Result<Link<T>, AllocError>
        ensures { IfOk result (λ link. link ≡ record { room = capacity; items = [] }) }
    {
        let mut slots = Vec::with_capacity(alloc, capacity as usize)?;
        for blank in 0..capacity {
            slots.push(T::blank(alloc)?)?;
        }
        Ok(Link::over(capacity, slots))
    }

    /// Becomes an empty link with room for `capacity` items. If it has so many places, they are used again and no
    /// memory is taken.
    #[tactic(auto, using(crate::proofs::Rings::around_none))]
    pub fn restart(&mut self, alloc: Global, capacity: u32) -> Result<(), AllocError>
        ensures { OnOk result (self.new ≡ record { room = capacity; items = [] }) }
    {
        if self.capacity != capacity {
            *self = Link::of_blanks(alloc, capacity)?;
        }
        self.first = 0;
        self.next = 0;
        self.count = 0;
        Ok(())
    }
}

// What moves no item.
impl<T> Link<T> {
    /// Puts a place behind all others and lends it: what is left in it is the newest item. Until then
    /// it holds a value that lay there before.
    #[tactic(auto, using(crate::proofs::Rings::length_around, crate::proofs::Rings::around_write))]
    pub fn push_place(&mut self) -> &mut T
        requires { length self.old.items < self.old.room }
        ensures* lends { sem 𝓛 (LendsPlace T.row self.entry result) }
    {
        let newest = self.next;
        self.next = place_behind(newest, self.capacity);
        self.count += 1;
        &mut self.slots[newest as usize]
    }

    /// Lends the oldest item where it lies: what is left behind the loan is the oldest item from then on.
    #[tactic(auto, using(crate::proofs::Rings::length_around))]
    pub fn head_place(&mut self) -> &mut T
        requires { 0 < length self.old.items }
        ensures* lends { sem 𝓛 (LendsHead T.row self.entry result) }
        ensures item { self.old.items ≡ result.now ∷ drop 1 self.old.items }
    {
        &mut self.slots[self.first as usize]
    }

    /// Drops the oldest item, where there is one.
    #[tactic(auto, using(crate::proofs::Rings::around_dropped, crate::proofs::Rings::none_dropped))]
    pub fn drop_head(&mut self)
        ensures room { self.new.room ≡ self.old.room }
        ensures items { self.new.items ≡ drop 1 self.old.items }
    {
        if self.count > 0 {
            self.first = place_behind(self.first, self.capacity);
            self.count -= 1;
        }
    }

    /// The oldest item: none where the link is empty.
    #[tactic(auto, using(crate::proofs::Rings::around_none))]
    pub fn head(&self) -> Option<&T>
        ensures item { MatchOption result (self.now.items ≡ []) (λ item. (rest : List T)
            × (self.now.items ≡ item.now ∷ rest)) }
        ensures rest { IfSome result (λ item. self.now.items ≡ item.now ∷ drop 1 self.now.items) }
    {
        if self.count == 0 {
            return None;
        }
        Some(&self.slots[self.first as usize])
    }

    /// How many items the link holds, which is never above its capacity.
    #[tactic(auto, using(crate::proofs::Rings::length_around))]
    pub fn len(&self) -> usize
        ensures length { result ≡ length self.now.items }
        ensures within { length self.now.items ≤ self.now.room }
    {
        self.count as usize
    }

    /// Whether the link holds no item.
    #[tactic(auto, using(crate::proofs::Rings::nil_length))]
    pub fn is_empty(&self) -> bool
        ensures { result ≡ is_nil self.now.items }
    {
        self.len() == 0
    }

    /// How many items the link has room for in all.
    pub fn capacity(&self) -> u32
        ensures { result ≡ self.now.room }
    {
        self.capacity
    }
}
