//! One byte heard, and one packet answered.
ghost use Rattle.std.specs.Prelude.{◌≡◌, ◌≢◌, Err, IfOk, IsErrOf, MatchOption, OnErr, OnOk};
ghost use Rattle.gdb_packets.specs.Frames.{Packet};
ghost use Rattle.gdb_packets.specs.Lines.{Shows, Wire, payload_in};
ghost use Rattle.gdb_packets.specs.Readers.{event_of};
ghost use Rattle.rtr_io.specs.Faults.{HasRisen, IsUnlessFault};
ghost use Rattle.gdb_server.specs.Hearing.{Follows, FollowsInPart, Hears, HearsInPart, HearsNothing, SaysAnswer};
ghost use Rattle.gdb_server.specs.Hearing.{is_packet};
ghost use Rattle.gdb_server.specs.Wires.{frames, last_frame};
ghost use Rattle.gdb_server.specs.declared.hearing.TalkFault.TheVariants as faults;

use crate::conversation::Conversation;
use crate::partner::{Answer, Next, Partner};
use gdb_packets::{Line, Told};
use rtr_io::{Failed, WriteFault};
use rtr_types::Items;
use std::alloc::{AllocError, Global};

/// Why a session broke off.
#[derive(Clone, Copy, Debug, PartialEq, Eq)]
pub enum TalkFault {
    /// A byte couldn't be read.
    ReadFault,
    /// What was to be said couldn't be written.
    WriteFault,
    /// There was no memory for an answer.
    OutOfMemory,
}

impl From<AllocError> for TalkFault {
    ghost from_gives = { λ _ e. e ≡ faults.OutOfMemory };

    fn from(_error: AllocError) -> TalkFault {
        TalkFault::OutOfMemory
    }
}

impl From<WriteFault> for TalkFault {
    ghost from_gives = { λ _ e. e ≡ faults.WriteFault };

    fn from(_fault: WriteFault) -> TalkFault {
        TalkFault::WriteFault
    }
}

/// Hears a byte, if one is left, and says what has to be said at once: before anything else is heard.
pub(crate) fn hear<C: Conversation>(
    alloc: Global,
    line: &mut Line,
    conversation: &mut C,
) -> Result<Option<Told>, TalkFault>
    ensures heard { (wire : Wire) → Shows wire line.old → IfOk result (λ told. MatchOption told
        (HearsNothing C.passed wire line.new conversation.old conversation.new × C.is_over conversation.new)
        (λ event. Hears C.passed wire event line.new conversation.old conversation.new)) }
    ensures broken { (wire : Wire) → Shows wire line.old →
        OnErr result (HearsInPart C.passed wire conversation.old conversation.new) }
    ensures read_fault { IsErrOf result TalkFault.ReadFault →
        HasRisen (C.read_faults conversation.old) (C.read_faults conversation.new) }
    ensures no_read_fault { IsUnlessFault TalkFault.ReadFault result (C.read_faults conversation.old)
        (C.read_faults conversation.new) }
    ensures write_fault { IsErrOf result TalkFault.WriteFault →
        HasRisen (C.write_faults conversation.old) (C.write_faults conversation.new) }
    ensures no_write_fault { IsUnlessFault TalkFault.WriteFault result (C.write_faults conversation.old)
        (C.write_faults conversation.new) }
{
    match conversation.hear() {
        Ok(Some(byte)) => {
            let mut said = Vec::new(alloc);
            let told = line.hear(byte, &mut said)?;
            conversation.say(said.as_slice())?;
            Ok(Some(told))
        }
        Ok(None) => Ok(None),
        Err(Failed) => Err(TalkFault::ReadFault),
    }
}

/// Whether a packet has come.
pub(crate) fn is_packet(told: Told) -> bool
    ensures { result ≡ is_packet told }
{
    matches!(told, Told::Packet)
}

/// Does what the byte that the line heard last asks for, and answers what is to be done next.
pub(crate) fn follow<P: Partner, C: Conversation>(
    alloc: Global,
    partner: &mut P,
    line: &mut Line,
    conversation: &mut C,
    told: Told,
) -> Result<Next, TalkFault>
    ensures followed { (wire : Wire) → Shows wire line.old → IfOk result (λ next. Follows P.answers P.interrupts
        C.passed wire partner.old (event_of told (payload_in line.old)) partner.new next line.new conversation.old
        conversation.new) }
    ensures broken { (wire : Wire) → OnErr result (FollowsInPart P.answers P.interrupts C.passed wire partner.old
        (event_of told (payload_in line.old)) conversation.old conversation.new) }
    ensures read_fault { result ≢ Err TalkFault.ReadFault }
    ensures still_read { C.read_faults conversation.new ≡ C.read_faults conversation.old }
    ensures write_fault { IsErrOf result TalkFault.WriteFault →
        HasRisen (C.write_faults conversation.old) (C.write_faults conversation.new) }
    ensures no_write_fault { IsUnlessFault TalkFault.WriteFault result (C.write_faults conversation.old)
        (C.write_faults conversation.new) }
{
    match told {
        Told::Packet => answer(alloc, partner, line, conversation),
        Told::Interrupt => {
            partner.interrupt();
            Ok(Next::Listen)
        }
        Told::Nothing => Ok(Next::Listen),
        Told::Broken => Ok(Next::Listen),
        Told::Again => Ok(Next::Listen),
    }
}

/// Answers the packet that the line was told last, and answers what is to be done next.
pub(crate) fn answer<P: Partner, C: Conversation>(
    alloc: Global,
    partner: &mut P,
    line: &mut Line,
    conversation: &mut C,
) -> Result<Next, TalkFault>
    ensures said { (wire : Wire) → Shows wire line.old → IfOk result (λ next. SaysAnswer P.answers C.passed wire
        partner.old (payload_in line.old) partner.new next line.new conversation.old conversation.new) }
    ensures broken { (wire : Wire) → OnErr result (FollowsInPart P.answers P.interrupts C.passed wire partner.old
        (Packet (payload_in line.old)) conversation.old conversation.new) }
    ensures read_fault { result ≢ Err TalkFault.ReadFault }
    ensures still_read { C.read_faults conversation.new ≡ C.read_faults conversation.old }
    ensures write_fault { IsErrOf result TalkFault.WriteFault →
        HasRisen (C.write_faults conversation.old) (C.write_faults conversation.new) }
    ensures no_write_fault { IsUnlessFault TalkFault.WriteFault result (C.write_faults conversation.old)
        (C.write_faults conversation.new) }
{
    let Answer { payloads, next } = partner.answer(alloc, line.payload())?;
    let said = frames_of(alloc, line, payloads.as_slice())?;
    conversation.say(said.as_slice())?;
    if next.stops_acks() {
        line.stop_acks();
    }
    Ok(next)
}

/// The frames of the payloads, in order.
fn frames_of(alloc: Global, line: &mut Line, payloads: &[Items<u8>]) -> Result<Vec<u8>, AllocError>
    ensures frames { IfOk result (λ said. said.items ≡ frames payloads.now) }
    ensures shows { (wire : Wire) → Shows wire line.old →
        OnOk result (Shows (record wire { last = last_frame wire.last payloads.now }) line.new) }
{
    let mut said = Vec::new(alloc);
    for payload in payloads {
        line.answer(alloc, payload.as_slice(), &mut said)?;
    }
    Ok(said)
}
