//! A recording, read to its end and audited.
ghost use Rattle.std.specs.Prelude.{ℕ, IfErr, IfOk, IsErrOf, List, OnOk};
ghost use Rattle.log_codec.specs.Reading.{whole_at};
ghost use Rattle.replay_audit.specs.Audits.{IsAuditOf};
ghost use Rattle.rtr_cli.specs.Inputs.{SpellsSome, most_of};
ghost use Rattle.rtr_cli.specs.Commands.{Refuses};
ghost use Rattle.rtr_cli.specs.Promises.{Promised};
ghost use Rattle.rtr_cli.specs.Completeness.{Accepts, EndsWell, HasLeft, IsFaultless};
ghost use Rattle.rtr_io.specs.Faults.{HasRisen, IsUnlessFault};
ghost use Rattle.gdb_cli.specs.Sessions.{Declines, IsAudited, replayed_by};

use log_codec::read;
use replay_audit::Audited;
use rtr_cli::audited;
use rtr_io::{ReadEnd, Source, read_all};
use rtr_types::Which;
use state_text::Exit;
use std::alloc::Global;

/// The most bytes of a recording: 512 MiB.
pub(crate) const FILE_BYTES_MAX: usize = 536_870_912;

/// The audit of the recording that the bytes spell, or how the program ends without it.
fn audited_by(alloc: Global, which: Which, bytes: Vec<u8>) -> Result<Audited, Exit>
    ensures audited { IfOk result (λ audited. SpellsSome (whole_at bytes.items) (λ r. IsAuditOf which r audited)) }
    ensures promised { OnOk result (Promised (replayed_by which) bytes.items) }
    ensures refused { IfErr result (Refuses (replayed_by which) bytes.items) }
{
    let recording = read(alloc, bytes.as_slice())?;
    audited(alloc, recording, which)
}

/// The audit of the recording that the source has left, or how the program ends without it.
pub(crate) fn audited_in<F: Source>(
    alloc: Global,
    which: Which,
    source: &mut F,
) -> Result<Audited, Exit>
    ensures audited { IfOk result (IsAudited which (F.left source.old) (F.left source.new)) }
    ensures declined { IfErr result (λ exit. Declines which exit (F.left source.old) (F.left source.new)) }
    ensures read_fault { IsErrOf result Exit.ReadFault → HasRisen (F.faults source.old) (F.faults source.new) }
    ensures no_read_fault { IsUnlessFault Exit.ReadFault result (F.faults source.old) (F.faults source.new) }
    ensures complete { (bytes : List ℕ) → HasLeft (most_of (replayed_by which)) (F.left source.old) bytes →
        Accepts (replayed_by which) bytes → IsFaultless (F.faults source.old) (F.faults source.new) →
        IfErr result EndsWell }
{
    let bytes = match read_all(alloc, source, FILE_BYTES_MAX) {
        Ok(bytes) => bytes,
        Err(ReadEnd::ReadFault) => return Err(Exit::ReadFault),
        Err(ReadEnd::TooLarge) => return Err(Exit::TooLarge),
        Err(ReadEnd::OutOfMemory) => return Err(Exit::OutOfMemory),
    };
    audited_by(alloc, which, bytes)
}
