//! A debugger's session on a recording.
ghost use Rattle.std.specs.Prelude.{◌≡◌, ◌⊎◌, ℕ, IsErrOf, List, OnErr, OnOk};
ghost use Rattle.gdb_packets.specs.Lines.{Shows, Wire, payload_in};
ghost use Rattle.rtr_cli.specs.Inputs.{most_of};
ghost use Rattle.rtr_cli.specs.Completeness.{Accepts, EndsWell, HasLeft, IsFaultless};
ghost use Rattle.rtr_io.specs.Faults.{HasRisen, IsUnlessFault};
ghost use Rattle.gdb_cli.specs.Sessions.{Converses, ConversesInPart, Debugs, replayed_by};

use crate::recordings::audited_in;
use gdb_packets::Line;
use gdb_server::{Conversation, TalkFault, greet, talk};
use gdb_session::Session;
use replay_audit::Audited;
use rtr_io::Source;
use rtr_types::Which;
use state_text::Exit;
use std::alloc::{AllocError, Global};

/// Holds a session with a debugger that speaks GDB's remote protocol in a conversation, on the recording that its
/// source has left, as the log has it. In the conversation's history what is owed for a byte stands behind it, and
/// before the next one that is heard.
///
/// The first packet is heard and acknowledged before anything is asked of the recording's source: a debugger that
/// has no acknowledgement in two seconds sends its packet again, and the audit of a long recording may take longer.
/// Then the recording is read to its end and audited, and the session begins before the first instruction: it
/// answers that packet, and then each that comes.
///
/// `Done` comes where a packet has ended the session, or the input has. Where it ends before a first packet,
/// nothing was asked of the recording. Everything else ends just as `rtr replay` ends, and where it ends there; but
/// for `ReadFault`, `WriteFault` and `OutOfMemory` nothing was said then beside acknowledgements. At these three what
/// was heard and said is a front of a session. `ReadFault` is of either source.
pub fn debug<F: Source, C: Conversation>(
    alloc: Global,
    which: Which,
    recording: &mut F,
    conversation: &mut C,
) -> Exit
    ensures answered { Debugs C.passed which result (F.left recording.old) (F.left recording.new) conversation.old
        conversation.new (C.is_over conversation.new) }

    // Faults of the file and of the conversation are told by their counts.
    ensures read_fault { result ≡ Exit.ReadFault →
        HasRisen (F.faults recording.old) (F.faults recording.new)
        ⊎ HasRisen (C.read_faults conversation.old) (C.read_faults conversation.new) }
    ensures no_read_fault { (result ≡ Exit.ReadFault) ⊎ (F.faults recording.new ≡ F.faults recording.old)
        × (C.read_faults conversation.new ≡ C.read_faults conversation.old) }
    ensures write_fault { result ≡ Exit.WriteFault →
        HasRisen (C.write_faults conversation.old) (C.write_faults conversation.new) }
    ensures no_write_fault { (result ≡ Exit.WriteFault)
        ⊎ (C.write_faults conversation.new ≡ C.write_faults conversation.old) }

    // On a recording that `rtr replay` accepts there is a session to its end, unless memory runs out or a stream fails.
    ensures complete { (bytes : List ℕ) → HasLeft (most_of (replayed_by which)) (F.left recording.old) bytes →
        Accepts (replayed_by which) bytes → IsFaultless (F.faults recording.old) (F.faults recording.new) →
        IsFaultless (C.read_faults conversation.old) (C.read_faults conversation.new) →
        IsFaultless (C.write_faults conversation.old) (C.write_faults conversation.new) → EndsWell result }
{
    let mut line = match Line::new(alloc) {
        Ok(line) => line,
        Err(AllocError) => return Exit::OutOfMemory,
    };
    match greet(alloc, &mut line, conversation) {
        Ok(true) => {}
        Ok(false) => return Exit::Done,
        Err(TalkFault::ReadFault) => return Exit::ReadFault,
        Err(TalkFault::WriteFault) => return Exit::WriteFault,
        Err(TalkFault::OutOfMemory) => return Exit::OutOfMemory,
    }
    let audited = match audited_in(alloc, which, recording) {
        Ok(audited) => audited,
        Err(exit) => return exit,
    };
    match converse(alloc, &audited, &mut line, conversation) {
        Ok(()) => Exit::Done,
        Err(TalkFault::ReadFault) => Exit::ReadFault,
        Err(TalkFault::WriteFault) => Exit::WriteFault,
        Err(TalkFault::OutOfMemory) => Exit::OutOfMemory,
    }
}

/// A session on the audited recording, which answers the packet that the line was told last, and then each that comes.
fn converse<C: Conversation>(
    alloc: Global,
    audited: &Audited,
    line: &mut Line,
    conversation: &mut C,
) -> Result<(), TalkFault>
    ensures conversed { (wire : Wire) → Shows wire line.old → OnOk result (Converses audited.now wire
        (payload_in line.old) (λ words. C.passed conversation.old words conversation.new)
        (C.is_over conversation.new)) }
    ensures broken { (wire : Wire) → Shows wire line.old → OnErr result (ConversesInPart audited.now wire
        (payload_in line.old) (λ words. C.passed conversation.old words conversation.new)) }
    ensures read_fault { IsErrOf result TalkFault.ReadFault →
        HasRisen (C.read_faults conversation.old) (C.read_faults conversation.new) }
    ensures no_read_fault { IsUnlessFault TalkFault.ReadFault result (C.read_faults conversation.old)
        (C.read_faults conversation.new) }
    ensures write_fault { IsErrOf result TalkFault.WriteFault →
        HasRisen (C.write_faults conversation.old) (C.write_faults conversation.new) }
    ensures no_write_fault { IsUnlessFault TalkFault.WriteFault result (C.write_faults conversation.old)
        (C.write_faults conversation.new) }
{
    let mut session = Session::begin(alloc, audited)?;
    talk(alloc, &mut session, line, conversation)
}
