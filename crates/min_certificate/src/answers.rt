//! Why there is no certificate, and why one doesn't show what it says.
ghost use Rattle.std.specs.Prelude.{◌≡◌};
ghost use Rattle.min_certificate.specs.declared.answers.CertFault.TheVariants.{OutOfMemory};
ghost use Rattle.min_certificate.specs.declared.answers.CheckFault.TheVariants.{OutOfMemory as NoMemory};

use replay_audit::AuditFault;
use rtr_types::Edge;
use std::alloc::AllocError;

/// Why there is no certificate.
#[derive(Clone, Copy, Debug, PartialEq, Eq)]
pub enum CertFault {
    /// The edge is no conflict, or the other edges imply it. It is the first such edge, by pair and
    /// target.
    NotLeast { edge: Edge },
    /// Memory ran out.
    OutOfMemory,
}

impl From<AllocError> for CertFault {
    ghost from_gives = { λ _ e. e ≡ OutOfMemory };

    fn from(_error: AllocError) -> Self {
        CertFault::OutOfMemory
    }
}

/// Why a reduced log isn't shown to be least: the first three by a check of a certificate, the last where
/// a certificate was to be made.
#[derive(Clone, Copy, Debug, PartialEq, Eq)]
pub enum CheckFailure {
    /// The edge is no conflict.
    NotConflict { edge: Edge },
    /// The core's entry with this number, counted from 1, isn't good.
    BadClock { core: u8, entry: u32 },
    /// The edge isn't needed: its source is known at its target without it.
    NotNeeded { edge: Edge },
    /// The edge is no conflict, or the other edges imply it. A check never answers this.
    NotLeast { edge: Edge },
}

/// Why a certificate isn't accepted.
#[derive(Clone, Copy, PartialEq, Eq)]
pub enum CheckFault {
    /// The recording isn't determinate by its reduced log. Want of memory is never told so.
    Audit(AuditFault),
    /// It is, but the certificate doesn't show that the log is least.
    Failed(CheckFailure),
    /// Memory ran out.
    OutOfMemory,
}

impl From<AllocError> for CheckFault {
    ghost from_gives = { λ _ e. e ≡ NoMemory };

    fn from(_error: AllocError) -> Self {
        CheckFault::OutOfMemory
    }
}

impl From<AuditFault> for CheckFault {
    ghost use Rattle.min_certificate.specs.Faults.{fault_of_audit};

    ghost from_gives = { λ fault e. e ≡ fault_of_audit fault };

    fn from(fault: AuditFault) -> Self {
        match fault {
            AuditFault::OutOfMemory => CheckFault::OutOfMemory,
            _ => CheckFault::Audit(fault),
        }
    }
}
