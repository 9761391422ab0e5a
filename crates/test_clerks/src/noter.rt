//! A clerk that notes times, and keeps what each access finds.
ghost use Rattle.std.specs.Prelude.{◌≡◌, ◌≢◌, ◌<◌, ℕ, slice_index, slice_set};
ghost use Rattle.std.proofs.Common.{◌∙◌, ap};
ghost use Rattle.std.proofs.lemmas.List.{get_or-set_other};
ghost use Rattle.access_times.specs.Times.{times_noted};
ghost use Rattle.clock_core.specs.Counts.{no_counts};
ghost use Rattle.rtr_types.specs.declared.TheConstants.{CORES_MAX};

use access_times::{Carry, Clerk, Times, TimesClerk};
use clock_core::Clock;
use rtr_types::{Access, BLOCK_WORDS, CORES_MAX, Instr};
use tso_clerk::TsoClerk;

/// A place for each core, as the length of an array.
const PLACES: usize = CORES_MAX as usize;

/// The most accesses that a noter keeps.
const ROOM: usize = 8;

/// A write with the clock that was noted for it.
pub type Noted = Option<(Instr, Clock)>;

/// The count of a core's read with its clock.
pub type Read = Option<(u32, Clock)>;

/// What an access finds of its word: the last write, and each core's last read since.
#[derive(Clone, Copy, Debug, PartialEq, Eq)]
pub struct Found {
    pub write: Noted,
    pub reads: [Read; PLACES],
}

impl Found {
    /// No write and no read.
    pub fn nothing() -> Found {
        Found {
            write: None,
            reads: [None; PLACES],
        }
    }
}

/// An access, and what it found.
#[derive(Clone, Copy, Debug, PartialEq, Eq)]
pub struct Told {
    pub access: Access,
    pub found: Found,
}

/// Notes the n-th instruction of a core with the clock that has n at its place alone, and keeps all accesses in
/// order.
#[derive(Drop)]
pub struct Noter {
    pub counts: [u32; PLACES],
    pub told: [Option<Told>; ROOM],
    pub kept: usize,
}

impl Noter {
    /// A noter that was told nothing yet.
    pub fn new() -> Noter {
        Noter {
            counts: [0; PLACES],
            told: [None; ROOM],
            kept: 0,
        }
    }

    /// Keeps the access with what the rider has of its word.
    fn keep(&mut self, access: Access, rider: &Times)
        ensures { self.new.counts ≡ self.old.counts }
    {
        let slot = (access.word % BLOCK_WORDS as u32) as u8;
        let mut reads = [None; PLACES];
        for core in 0..CORES_MAX {
            reads[core as usize] = rider.read_by(slot, core);
        }
        let write = rider.write(slot);
        let found = Found { write, reads };
        if self.kept < ROOM {
            self.told[self.kept] = Some(Told { access, found });
            self.kept += 1;
        }
    }
}

impl<K: Carry> Clerk<Times, K> for Noter {
    ghost accepts = { λ c at. at.core < CORES_MAX };

    ghost told_local = { λ c at k d. d.counts ≡ slice_set c.counts at.core at.count };

    ghost told_touch = { λ c before a k d after.
        (d.counts ≡ slice_set c.counts a.at.core a.at.count)
        × (after ≡ times_noted a before (slice_set no_counts a.at.core (slice_index d.counts a.at.core))) };

    fn local(&mut self, at: Instr, _carry: &K) {
        self.counts[at.core as usize] = at.count;
    }

    fn touched(&mut self, access: Access, rider: &mut Times, _carry: &K) {
        self.keep(access, rider);
        let at = access.at;
        self.counts[at.core as usize] = at.count;
        let mut clock = Clock::zero();
        clock.set(at.core, self.counts[at.core as usize]);
        let slot = (access.word % BLOCK_WORDS as u32) as u8;
        if access.kind.is_write() {
            rider.on_store(slot, at, clock);
        } else {
            rider.on_load(slot, at, clock);
        }
    }
}

impl<K: Carry> TsoClerk<Times, K> for Noter {
    ghost accepts_alone = { λ c at. at.core < CORES_MAX };

    ghost told_logged = { λ c at word value k d. d.counts ≡ slice_set c.counts at.core at.count };

    fn alone(&mut self, at: Instr, _carry: &K) {
        self.counts[at.core as usize] = at.count;
    }

    fn logged(&mut self, at: Instr, _word: u32, _value: u32, _carry: &K) {
        self.counts[at.core as usize] = at.count;
    }
}

impl<K: Carry> TimesClerk<K> for Noter {
    ghost use Rattle.std.specs.Prelude.{List};

    ghost clock = { λ c core. slice_set no_counts core (slice_index c.counts core) };

    ghost local_keeps = { λ c d at k told core other.
        ap (λ (counts : List ℕ). slice_set no_counts core (slice_index counts core)) told
        ∙ ap (λ (count : ℕ). slice_set no_counts core count)
        (get_or-set_other c.counts at.core core at.count 0 other) };

    ghost touch_keeps = { λ c d before after a k told core other.
        ap (λ (counts : List ℕ). slice_set no_counts core (slice_index counts core)) told.0
        ∙ ap (λ (count : ℕ). slice_set no_counts core count)
        (get_or-set_other c.counts a.at.core core a.at.count 0 other) };

    ghost touch_notes = { λ c d before after a k told. told.1 };
}

/// The clock that a noter notes for the instruction.
fn clock_of(at: Instr) -> Clock {
    let mut clock = Clock::zero();
    if at.core < CORES_MAX {
        clock.set(at.core, at.count);
    }
    clock
}

/// The instruction with the clock that a noter notes for it.
pub fn noted(at: Option<Instr>) -> Noted {
    let at = at?;
    Some((at, clock_of(at)))
}

/// The count of the core's read with the clock that a noter notes for it.
pub fn noted_read(core: u8, count: Option<u32>) -> Read {
    let count = count?;
    Some((count, clock_of(Instr { core, count })))
}
