//! A session from its first byte on.
ghost use Rattle.std.specs.Prelude.{IfOk, IsErrOf, OnErr, OnOk};
ghost use Rattle.gdb_packets.specs.Lines.{Shows, Wire, payload_in};
ghost use Rattle.rtr_io.specs.Faults.{HasRisen, IsUnlessFault};
ghost use Rattle.gdb_server.specs.Sessions.{Greets, GreetsInPart, Talked, TalkedInPart};

use crate::conversation::Conversation;
use crate::hearing::{TalkFault, answer, follow, hear, is_packet};
use crate::partner::Partner;
use gdb_packets::Line;
use std::alloc::Global;

/// Hears bytes until one has ended a packet, and says at once whatever has to be, before the next byte is heard: the
/// packet is acknowledged before it is answered. An interrupt is passed over, since nothing runs yet. Whether a packet
/// has come; else no byte is left.
pub fn greet<C: Conversation>(
    alloc: Global,
    line: &mut Line,
    conversation: &mut C,
) -> Result<bool, TalkFault>
    ensures greeted { (wire : Wire) → Shows wire line.old → IfOk result (λ some. Greets wire some line.new
        (λ words. C.passed conversation.old words conversation.new) (C.is_over conversation.new)) }
    ensures broken { (wire : Wire) → Shows wire line.old → OnErr result (GreetsInPart wire
        (λ words. C.passed conversation.old words conversation.new)) }
    ensures read_fault { IsErrOf result TalkFault.ReadFault →
        HasRisen (C.read_faults conversation.old) (C.read_faults conversation.new) }
    ensures no_read_fault { IsUnlessFault TalkFault.ReadFault result (C.read_faults conversation.old)
        (C.read_faults conversation.new) }
    ensures write_fault { IsErrOf result TalkFault.WriteFault →
        HasRisen (C.write_faults conversation.old) (C.write_faults conversation.new) }
    ensures no_write_fault { IsUnlessFault TalkFault.WriteFault result (C.write_faults conversation.old)
        (C.write_faults conversation.new) }
{
    for count in 0..u64::MAX {
        match hear(alloc, line, conversation)? {
            None => return Ok(false),
            Some(told) => {
                if is_packet(told) {
                    return Ok(true);
                }
            }
        }
    }
    Ok(false)
}

/// Answers the packet that the line was told last, and then every packet that comes, until the partner's answer ends
/// the session or no byte is left. In the conversation's history each answer stands behind the byte that ended
/// its packet, and before the next byte that is heard.
pub fn talk<P: Partner, C: Conversation>(
    alloc: Global,
    partner: &mut P,
    line: &mut Line,
    conversation: &mut C,
) -> Result<(), TalkFault>
    ensures talked { (wire : Wire) → Shows wire line.old → OnOk result (Talked P.answers P.interrupts wire partner.old
        (payload_in line.old) partner.new (λ words. C.passed conversation.old words conversation.new)
        (C.is_over conversation.new)) }
    ensures broken { (wire : Wire) → Shows wire line.old → OnErr result (TalkedInPart P.answers P.interrupts wire
        partner.old (payload_in line.old) (λ words. C.passed conversation.old words conversation.new)) }
    ensures read_fault { IsErrOf result TalkFault.ReadFault →
        HasRisen (C.read_faults conversation.old) (C.read_faults conversation.new) }
    ensures no_read_fault { IsUnlessFault TalkFault.ReadFault result (C.read_faults conversation.old)
        (C.read_faults conversation.new) }
    ensures write_fault { IsErrOf result TalkFault.WriteFault →
        HasRisen (C.write_faults conversation.old) (C.write_faults conversation.new) }
    ensures no_write_fault { IsUnlessFault TalkFault.WriteFault result (C.write_faults conversation.old)
        (C.write_faults conversation.new) }
{
    let mut next = answer(alloc, partner, line, conversation)?;
    for count in 0..u64::MAX {
        if next.is_last() {
            return Ok(());
        }
        match hear(alloc, line, conversation)? {
            None => return Ok(()),
            Some(told) => next = follow(alloc, partner, line, conversation, told)?,
        }
    }
    Ok(())
}
