//! A word's last write.
ghost use Rattle.std.specs.Prelude.{◌≡◌, None, Some};
ghost use Rattle.access_times.specs.Times.{is_same_write};
ghost use Rattle.access_times.specs.Writes.{write_seen};

use clock_core::Clock;
use rtr_types::Instr;
use std::marker::Model;

/// A word's last write, with the clock that was noted for it, or none. Contracts see the option.
///
/// The note lies beside a flag that says whether it means anything: so a write is forgotten at once, and no clock is
/// written where none was noted.
#[derive(Drop)]
pub(crate) struct LastWrite {
    is_noted: bool,
    note: (Instr, Clock),
}

impl Model for LastWrite {
    ghost use Rattle.std.specs.Prelude.{◌≡◌, Option};
    ghost use Rattle.rtr_types.specs.declared.instr.Instr.{Instr};
    ghost use Rattle.clock_core.specs.declared.clock.Clock.{Clock};
    ghost use Rattle.access_times.specs.Writes.{write_if};

    ghost Value = { Option (Instr × Clock) };

    ghost view = { λ a. write_if a.is_noted a.note };
}

impl LastWrite {
    /// No write.
    pub(crate) fn none() -> LastWrite
        ensures { result ≡ None }
    {
        let at = Instr { core: 0, count: 0 };
        LastWrite {
            is_noted: false,
            note: (at, Clock::zero()),
        }
    }

    /// The write with its clock, where it lies.
    pub(crate) fn get(&self) -> Option<&(Instr, Clock)>
        ensures { write_seen result ≡ self.now }
    {
        if self.is_noted {
            Some(&self.note)
        } else {
            None
        }
    }

    /// Notes this write in place of the last one.
    pub(crate) fn set(&mut self, at: Instr, clock: Clock)
        ensures { self.new ≡ Some (at, clock) }
    {
        self.is_noted = true;
        self.note = (at, clock);
    }

    /// Forgets the write.
    pub(crate) fn clear(&mut self)
        ensures { self.new ≡ None }
    {
        self.is_noted = false;
    }

    /// Becomes equal to the other. No clock is copied where there is no write.
    pub(crate) fn copy_from(&mut self, other: &LastWrite)
        ensures { self.new ≡ other.now }
    {
        self.is_noted = other.is_noted;
        if other.is_noted {
            self.note = other.note;
        }
    }

    /// Whether the two are one write with one clock, or both are none.
    pub(crate) fn is_same(&self, other: &LastWrite) -> bool
        ensures { result ≡ is_same_write self.now other.now }
    {
        if !self.is_noted || !other.is_noted {
            return self.is_noted == other.is_noted;
        }
        let (at, clock) = &self.note;
        let (other_at, other_clock) = &other.note;
        at.core == other_at.core && at.count == other_at.count && *clock == *other_clock
    }
}
