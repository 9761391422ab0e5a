//! The pending accesses of a core.
ghost use Rattle.std.specs.Prelude.{◌≡◌, ◌<◌, ◌++◌, [], ◌∷◌, drop, length};
ghost use Rattle.link_order.specs.Queue.{is_nil};
ghost use Rattle.tso_core.specs.Queues.{oldest};
ghost use Rattle.tso_state.specs.Pending.{count_of, forwarded, left_by, stores_in, value_of, word_of};
ghost use Rattle.tso_state.specs.Steps.{has_room, has_store_room};
ghost use Rattle.tso_state.specs.declared.pending.TheConstants.{PENDING_MAX};

use std::marker::Model;
use tso_state::{PENDING_MAX, Pending, STORES_MAX};

/// The pending accesses of a core, the oldest first, in places of the value itself, so that none takes memory.
/// Contracts see the list.
#[derive(Drop)]
pub struct PendingQueue {
    places: [Pending; PENDING_MAX],
    len: usize,
    // how many of them are stores
    stores: usize,
}

impl Model for PendingQueue {
    ghost use Rattle.std.specs.Prelude.{◌≡◌, ◌≤◌, List, length, take};
    ghost use Rattle.tso_state.specs.Pending.{stores_in};
    ghost use Rattle.tso_state.specs.declared.pending.Pending.{Pending};
    ghost use Rattle.tso_state.specs.declared.pending.TheConstants.{PENDING_MAX};

    ghost Value = { List Pending };

    ghost view = { λ a. take a.len a.places };

    ghost invariant = { λ a. (a.len ≤ PENDING_MAX) × (length a.places ≡ PENDING_MAX)
        × (a.stores ≡ stores_in (take a.len a.places)) };
}

/// What lies in a place to which no access came yet.
const NO_ACCESS: Pending = Pending::Load {
    count: 0,
    word: 0,
    value: 0,
};

impl PendingQueue {
    /// No accesses.
    pub(crate) fn new() -> PendingQueue
        ensures { result ≡ [] }
    {
        PendingQueue {
            places: [NO_ACCESS; PENDING_MAX],
            len: 0,
            stores: 0,
        }
    }

    /// The oldest access.
    pub(crate) fn oldest(&self) -> Option<Pending>
        ensures { result ≡ oldest self.now }
    {
        if self.len == 0 {
            return None;
        }
        Some(self.places[0])
    }

    /// How many of the accesses are stores.
    pub(crate) fn stores(&self) -> usize
        ensures { result ≡ stores_in self.now }
    {
        self.stores
    }

    /// Whether no access is pending.
    pub(crate) fn is_empty(&self) -> bool
        ensures { result ≡ is_nil self.now }
    {
        self.len == 0
    }

    /// Whether there is room for another access.
    pub(crate) fn has_room(&self) -> bool
        ensures { result ≡ has_room self.now }
    {
        self.len < PENDING_MAX
    }

    /// Whether there is room for another store.
    pub(crate) fn has_store_room(&self) -> bool
        ensures { result ≡ has_store_room self.now }
    {
        self.has_room() && self.stores < STORES_MAX
    }

    /// Puts an access behind all others.
    pub(crate) fn push(&mut self, pending: Pending)
        requires { length self.old < PENDING_MAX }
        ensures { self.new ≡ self.old ++ pending ∷ [] }
    {
        self.stores += stores_of(pending);
        self.places[self.len] = pending;
        self.len += 1;
    }

    /// Takes the oldest access out, where there is one.
    pub(crate) fn drop_oldest(&mut self)
        ensures { self.new ≡ drop 1 self.old }
    {
        if self.len == 0 {
            return;
        }
        self.stores -= stores_of(self.places[0]);
        self.places.copy_within(1..self.len, 0);
        self.len -= 1;
    }

    /// The word as the core sees it, by its index, where its copy has the value `old` of it: with the lanes of the
    /// core's own pending stores to it, of which the newest counts.
    #[tactic(auto, using(crate::proofs::Queues::seen_more))]
    pub(crate) fn seen(&self, word: u32, old: u32) -> u32
        ensures { result ≡ forwarded self.now word old }
    {
        let mut value = old;
        for pending in &self.places[..self.len] {
            value = seen_by(*pending, word, value);
        }
        value
    }
}

/// How many stores the access is.
fn stores_of(pending: Pending) -> usize
    ensures { result ≡ stores_in (pending ∷ []) }
{
    match pending {
        Pending::Load { .. } => 0,
        Pending::Store { .. } => 1,
    }
}

/// What a word is to its core once it sees the access, if that is to the word.
fn seen_by(pending: Pending, word: u32, old: u32) -> u32
    ensures { result ≡ forwarded (pending ∷ []) word old }
{
    if word_of(pending) == word {
        left_by(pending, old)
    } else {
        old
    }
}

/// The index of the access's word.
fn word_of(pending: Pending) -> u32
    ensures { result ≡ word_of pending }
{
    match pending {
        Pending::Load { word, .. } | Pending::Store { word, .. } => word,
    }
}

/// The count of the access's instruction in its core.
pub(crate) fn count_of(pending: Pending) -> u32
    ensures { result ≡ count_of pending }
{
    match pending {
        Pending::Load { count, .. } | Pending::Store { count, .. } => count,
    }
}

/// The value that a load got. A store gets none, and this is 0.
pub(crate) fn value_of(pending: Pending) -> u32
    ensures { result ≡ value_of pending }
{
    match pending {
        Pending::Load { value, .. } => value,
        Pending::Store { .. } => 0,
    }
}

/// What the access leaves of its word, from what that was: a store replaces the bits of its lanes.
pub(crate) fn left_by(pending: Pending, old: u32) -> u32
    ensures { result ≡ left_by pending old }
{
    match pending {
        Pending::Load { .. } => old,
        Pending::Store { mask, bits, .. } => old & !mask | bits,
    }
}
