//! What a core awaits of each other one.
ghost use Rattle.std.specs.Prelude.{◌≡◌, ◌≢◌, ℕ, ◌<◌, ◌≤◌, ◌^◌, IsTrue, ◌↔◌};
ghost use Rattle.rtr_types.specs.declared.TheConstants.{CORES_MAX};
ghost use Rattle.know_history.specs.Knowledge.{count_in};
ghost use Rattle.edge_regulate.specs.Awaiting.{looked, none_awaited, watched};
ghost use Rattle.edge_regulate.specs.Seats.{IsLeast, awaited_at, no_seat};

use know_history::Known;
use rtr_types::CORES_MAX;

/// A place for each core, as the length of an array.
const PLACES: usize = CORES_MAX as usize;

/// More than each count.
const NEVER: u64 = 1 << 32;

/// What is awaited of a source at the core: the next position of the pair's open vector, until it is known
/// whether the source's instruction is known at the core's.
#[derive(Clone, Copy)]
pub(crate) struct Awaited {
    /// The core's count of the first position that wasn't looked at. More than each count while the vector has
    /// no strides, and once a position was looked at that wasn't known.
    pub(crate) target: u64,
    /// The source's count of the last position that is known, at first of the vector's last one.
    pub(crate) reached: u32,
    /// The strides of the vector.
    pub(crate) sa: u32,
    pub(crate) sb: u32,
}

impl Awaited {
    /// Nothing is awaited.
    pub(crate) fn none() -> Awaited
        ensures { result ≡ none_awaited }
    {
        Awaited {
            target: NEVER,
            reached: 0,
            sa: 0,
            sb: 0,
        }
    }

    /// What is awaited after the position that is awaited, at which so many of the source's instructions are
    /// known.
    fn looked(&self, known: u32) -> Awaited
        requires { self.now.target < 2 ^ 32 }
        ensures { result ≡ looked known self.now }
    {
        let source = self.reached as u64 + self.sa as u64;
        let mut later = *self;
        if source <= known as u64 {
            later.target += self.sb as u64;
            later.reached = source as u32;
        } else {
            later.target = NEVER;
        }
        later
    }
}

/// What is awaited at one core of each source, and the least of these counts, so that a retirement that isn't
/// awaited costs one comparison.
#[derive(Clone, Copy)]
pub(crate) struct Seat {
    next: u64,
    sources: [Awaited; PLACES],
}

impl Seat {
    /// Nothing is awaited.
    pub(crate) fn none() -> Seat
        ensures { result ≡ no_seat }
    {
        Seat {
            next: NEVER,
            sources: [Awaited::none(); PLACES],
        }
    }

    /// Whether the instruction with this count may be awaited.
    pub(crate) fn awaits(&self, count: u32) -> bool
        ensures { IsTrue result ↔ self.now.next ≡ count }
    {
        self.next == count as u64
    }

    /// What is awaited of the source.
    pub(crate) fn awaited(&self, source: u8) -> &Awaited
        requires { source < CORES_MAX }
        ensures { result.now ≡ awaited_at self.now source }
    {
        &self.sources[source as usize]
    }

    /// From now on this is awaited of the source.
    pub(crate) fn put(&mut self, source: u8, awaited: Awaited)
        requires { source < CORES_MAX }
        ensures at { awaited_at self.new source ≡ awaited }
        ensures others { (other : ℕ) → other ≢ source → awaited_at self.new other ≡ awaited_at self.old other }
        ensures before { self.new.next ≤ self.old.next }
        ensures lower { self.new.next ≤ awaited.target }
        ensures greatest { (bound : ℕ) → bound ≤ self.old.next → bound ≤ awaited.target → bound ≤ self.new.next }
    {
        self.sources[source as usize] = awaited;
        if awaited.target < self.next {
            self.next = awaited.target;
        }
    }

    /// The core's instruction with this count retired, when so much was known of each of so many sources.
    pub(crate) fn look(&mut self, cores: u8, count: u32, known: &Known)
        requires { cores ≤ CORES_MAX }
        ensures each { (source : ℕ) → source < cores →
            awaited_at self.new source ≡ watched count (count_in known.now source) (awaited_at self.old source) }
        ensures least { IsLeast cores self.new }
    {
        let mut next = NEVER;
        for source in 0..cores {
            let target = self.look_at(source, count, known.count(source));
            if target < next {
                next = target;
            }
        }
        self.next = next;
    }

    /// What is awaited of one source, after the core's instruction with this count. The answer is its count.
    fn look_at(&mut self, source: u8, count: u32, known: u32) -> u64
        requires { source < CORES_MAX }
        ensures at { awaited_at self.new source ≡ watched count known (awaited_at self.old source) }
        ensures others { (other : ℕ) → other ≢ source → awaited_at self.new other ≡ awaited_at self.old other }
        ensures target { result ≡ (awaited_at self.new source).target }
    {
        let awaited = &mut self.sources[source as usize];
        if awaited.target == count as u64 {
            *awaited = awaited.looked(known);
        }
        awaited.target
    }
}
