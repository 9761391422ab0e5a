//! What a replay answers.
ghost use Rattle.std.specs.Prelude.{◌≡◌};
ghost use Rattle.replay_core.specs.declared.answers.ReplayFault.TheVariants.{OutOfMemory};

use rtr_types::{Access, Cut};
use std::alloc::AllocError;

/// What came of a core's next place.
#[derive(Clone, Copy, PartialEq, Eq)]
pub enum Advanced {
    /// The core has retired one instruction more. An access is told with its word's value before and
    /// after.
    Retired { access: Option<Access> },
    /// The core's program is done. Nothing changed.
    Short,
}

/// Why there is no outcome.
#[derive(Clone, Copy, Debug, PartialEq, Eq)]
pub enum ReplayFault {
    /// Memory ran out.
    OutOfMemory,
    /// No core is ready, and not all are at their totals. The cut says how far each has come.
    Stuck { cut: Cut },
    /// The core is ready, but its program is done after `count` instructions.
    Short { core: u8, count: u32 },
}

impl From<AllocError> for ReplayFault {
    ghost from_gives = { λ _ e. e ≡ OutOfMemory };

    fn from(_error: AllocError) -> Self {
        ReplayFault::OutOfMemory
    }
}
