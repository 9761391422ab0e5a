//! Why nothing is left out, and why a thinned recording doesn't show what it says.
ghost use Rattle.std.specs.Prelude.{◌≡◌};
ghost use Rattle.vector_reduce.specs.declared.answers.ThinFault.TheVariants.{OutOfMemory};
ghost use Rattle.vector_reduce.specs.declared.answers.ThinCheckFault.TheVariants.{OutOfMemory as NoMemory};

use replay_audit::AuditFault;
use std::alloc::AllocError;

/// The most vectors that are tried.
pub const VECTORS_MAX: u64 = 4096;

/// The most positions that the vectors which are tried may have in all.
pub const POSITIONS_MAX: u64 = 65_536;

/// Why no vectors are left out.
#[derive(Clone, Copy, Debug, PartialEq, Eq)]
pub enum ThinFault {
    /// There are more than `VECTORS_MAX` vectors, or they have more than `POSITIONS_MAX` positions in all,
    /// each of which is an edge.
    TooMany { vectors: u64, edges: u64 },
    /// Memory ran out.
    OutOfMemory,
}

impl From<AllocError> for ThinFault {
    ghost from_gives = { λ _ e. e ≡ OutOfMemory };

    fn from(_error: AllocError) -> Self {
        ThinFault::OutOfMemory
    }
}

/// Why a thinned recording isn't accepted.
#[derive(Clone, Copy, PartialEq, Eq)]
pub enum ThinCheckFault {
    /// The recording isn't determinate by its regulated log. Want of memory is never told so.
    Audit(AuditFault),
    /// It is, but the vector with this number, counted from 1, isn't shown to be needed. It is the first
    /// such.
    NotShown { vector: u32 },
    /// Memory ran out.
    OutOfMemory,
}

impl From<AllocError> for ThinCheckFault {
    ghost from_gives = { λ _ e. e ≡ NoMemory };

    fn from(_error: AllocError) -> Self {
        ThinCheckFault::OutOfMemory
    }
}

impl From<AuditFault> for ThinCheckFault {
    ghost use Rattle.vector_reduce.specs.Answers.{fault_of_audit};

    ghost from_gives = { λ fault e. e ≡ fault_of_audit fault };

    fn from(fault: AuditFault) -> Self {
        match fault {
            AuditFault::OutOfMemory => ThinCheckFault::OutOfMemory,
            _ => ThinCheckFault::Audit(fault),
        }
    }
}
