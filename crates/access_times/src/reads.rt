//! Each core's last read of a word.
ghost use Rattle.std.specs.Prelude.{◌≡◌, ℕ, ◌<◌, IsTrue, Some, false, true, if◌then◌else◌, is_some, length, slice_set};
ghost use Rattle.rtr_types.specs.CoreSets.{has, is_none};
ghost use Rattle.rtr_types.specs.declared.TheConstants.{CORES_MAX};
ghost use Rattle.access_times.specs.Reads.{read_if, read_seen};
ghost use Rattle.access_times.specs.Times.{newer_by, newer_read, no_reads, read_in, reads_absorbed, reads_by};

use clock_core::Clock;
use rtr_types::{CORES_MAX, CoreSet};
use std::marker::Model;

/// A place for each core, as the length of an array.
const PLACES: usize = CORES_MAX as usize;

/// For each core its last read of a word, by its count and with the clock that was noted for it, or
/// none. Contracts see the list of them, core 0 first.
///
/// There is a place for each core, and a read is there exactly where the set has the core: so reads are
/// forgotten at once, and a copy costs what is there.
#[derive(Drop)]
pub(crate) struct Reads {
    readers: CoreSet,
    places: [(u32, Clock); PLACES],
}

impl Model for Reads {
    ghost use Rattle.std.specs.Prelude.{◌≡◌, ℕ, List, Option, length};
    ghost use Rattle.rtr_types.specs.declared.TheConstants.{CORES_MAX};
    ghost use Rattle.clock_core.specs.declared.clock.Clock.{Clock};
    ghost use Rattle.access_times.specs.Reads.{reads_kept};

    ghost Value = { List (Option (ℕ × Clock)) };

    ghost view = { λ a. reads_kept a.readers a.places };

    ghost invariant = { λ a. length a.places ≡ CORES_MAX };
}

/// Whether the other read is of a greater count than the own one, or there is no own one.
fn is_newer(other: &(u32, Clock), has_own: bool, own: &(u32, Clock)) -> bool
    ensures { let own_read = read_if has_own own.now in
        newer_read own_read (Some other.now) ≡ (if result then Some other.now else own_read) }
{
    !has_own || own.0 < other.0
}

/// Whether the other read is of the own one's count or a greater one, or there is no own one.
fn is_no_older(other: &(u32, Clock), has_own: bool, own: &(u32, Clock)) -> bool
    ensures { let own_read = read_if has_own own.now in
        newer_read (Some other.now) own_read ≡ (if result then Some other.now else own_read) }
{
    !has_own || own.0 <= other.0
}

/// Whether the other read wins over the own one: it is newer, or as new where `ties` go to the other.
#[inline(always)]
fn wins(other: &(u32, Clock), has_own: bool, own: &(u32, Clock), ties: bool) -> bool
    ensures { let own_read = read_if has_own own.now in
        newer_by ties own_read (Some other.now) ≡ (if result then Some other.now else own_read) }
{
    if ties {
        is_no_older(other, has_own, own)
    } else {
        is_newer(other, has_own, own)
    }
}

/// A core of the set, which has one.
fn first_of(readers: CoreSet) -> u8
    requires { is_none readers ≡ false }
    ensures within { result < CORES_MAX }
    ensures there { has readers result ≡ true }
{
    readers.bits.trailing_zeros() as u8
}

impl Reads {
    /// No core's read.
    pub(crate) fn none() -> Reads
        ensures { result ≡ no_reads }
    {
        Reads {
            readers: CoreSet::empty(),
            places: [(0, Clock::zero()); PLACES],
        }
    }

    /// The core's read.
    pub(crate) fn get(&self, core: u8) -> Option<&(u32, Clock)>
        requires { core < CORES_MAX }
        ensures { read_seen result ≡ read_in self.now core }
    {
        if self.readers.has(core) {
            Some(&self.places[core as usize])
        } else {
            None
        }
    }

    /// Puts the core's read in place of its last one.
    pub(crate) fn set(&mut self, core: u8, count: u32, clock: Clock)
        requires { core < CORES_MAX }
        ensures reads { self.new ≡ slice_set self.old core (Some (count, clock)) }
        ensures places { length self.old ≡ CORES_MAX }
    {
        self.readers = self.readers.with(core);
        self.places[core as usize] = (count, clock);
    }

    /// The cores whose read is there.
    pub(crate) fn readers(&self) -> CoreSet
        ensures { (core : ℕ) → core < CORES_MAX → has result core ≡ is_some (read_in self.now core) }
    {
        self.readers
    }

    /// Whether nothing is taken over from the other, since it has no reads.
    pub(crate) fn learn_nothing_from(&self, other: &Reads) -> bool
        ensures { IsTrue result → reads_absorbed self.now other.now ≡ self.now }
    {
        // The own places are known of only where a field is used.
        let _own = &self.readers;
        other.readers.is_empty()
    }

    /// Forgets all reads.
    pub(crate) fn clear(&mut self)
        ensures { self.new ≡ no_reads }
    {
        self.readers = CoreSet::empty();
    }

    /// Takes over each read of the other that is newer than the own one.
    pub(crate) fn absorb(&mut self, other: &Reads)
        ensures { self.new ≡ reads_absorbed self.old other.now }
    {
        self.take_over(other, false);
    }

    /// Becomes the other once that has absorbed what these reads were.
    pub(crate) fn renew(&mut self, other: &Reads)
        ensures { self.new ≡ reads_absorbed other.now self.old }
    {
        self.take_over(other, true);
    }

    /// Takes over each read of the other that wins over the own one.
    #[inline(always)]
    fn take_over(&mut self, other: &Reads, ties: bool)
        ensures { self.new ≡ reads_by ties self.old other.now }
    {
        let mut left = other.readers;
        while !left.is_empty() {
            let core = first_of(left);
            left = left.without(core);
            let newer = &other.places[core as usize];
            if wins(
                newer,
                self.readers.has(core),
                &self.places[core as usize],
                ties,
            ) {
                self.readers = self.readers.with(core);
                self.places[core as usize] = *newer;
            }
        }
    }

    /// Becomes equal to the other. Only what is there is copied.
    pub(crate) fn copy_from(&mut self, other: &Reads)
        ensures { self.new ≡ other.now }
    {
        let mut left = other.readers;
        self.readers = left;
        while !left.is_empty() {
            let core = first_of(left);
            left = left.without(core);
            self.places[core as usize] = other.places[core as usize];
        }
    }
}
