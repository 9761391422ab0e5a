//! Who notes each retirement in the rider that records times.
ghost use Rattle.std.specs.Prelude.{◌≡◌, ◌≢◌, ℕ};
ghost use Rattle.rtr_types.specs.declared.access.Access.{Access};
ghost use Rattle.rtr_types.specs.declared.instr.Instr.{Instr};
ghost use Rattle.access_times.specs.declared.times.Times.{Times};
ghost use Rattle.clock_core.specs.declared.clock.Clock.{Clock};
ghost use Rattle.access_times.specs.Times.{times_noted};

use crate::carry::Carry;
use crate::clerk::Clerk;
use crate::times::Times;

/// A clerk that keeps one clock for each core, the one that it noted at the core's last retirement,
/// and notes each access in the rider with the core's new clock.
pub trait TimesClerk<K: Carry>: Clerk<Times, K> {
    /// The clock of each core: zero before its first retirement.
    ghost clock: { Self → ℕ → Clock };

    /// A retirement without an access changes the clock of its core alone.
    ghost local_keeps: { (c d : Self) (at : Instr) (carry : K) → Self.told_local c at carry d →
        (core : ℕ) → core ≢ at.core → clock d core ≡ clock c core };

    /// A retirement with an access changes the clock of its core alone.
    ghost touch_keeps: { (c d : Self) (before after : Times) (access : Access) (carry : K) →
        Self.told_touch c before access carry d after →
        (core : ℕ) → core ≢ access.at.core → clock d core ≡ clock c core };

    /// A retirement with an access leaves the rider with the access noted, by its core's new clock.
    ghost touch_notes: { (c d : Self) (before after : Times) (access : Access) (carry : K) →
        Self.told_touch c before access carry d after →
        after ≡ times_noted access before (clock d access.at.core) };
}
