//! Why a recording isn't determinate by its log.
ghost use Rattle.std.specs.Prelude.{◌≡◌};
ghost use Rattle.replay_audit.specs.declared.audit_fault.AuditFault.TheVariants.{OutOfMemory};

use rtr_types::{Cut, Instr};
use std::alloc::AllocError;

/// Why a recording isn't determinate by its log.
#[derive(Clone, Copy, Debug, PartialEq, Eq)]
pub enum AuditFault {
    /// No core is ready, and not all are at their totals. The cut says how far each has come.
    Stuck { cut: Cut },
    /// The core is ready, but its program is done after `count` instructions.
    Short { core: u8, count: u32 },
    /// The log leaves two accesses unordered that conflict. `second` is the earliest access of the low
    /// order that has such a partner before it, and `first` the latest of these partners.
    Undetermined { first: Instr, second: Instr },
    /// Memory ran out.
    OutOfMemory,
}

impl From<AllocError> for AuditFault {
    ghost from_gives = { λ _ e. e ≡ OutOfMemory };

    fn from(_error: AllocError) -> Self {
        AuditFault::OutOfMemory
    }
}
