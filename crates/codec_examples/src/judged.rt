//! What a check says of certificates that were damaged.
ghost use Rattle.race_log.specs.Validity.{Valid};

use crate::slow_judge::SlowJudge;
use certificate_codec::EdgeEnds;
use log_codec::{CodecFault, read_front};
use min_certificate::{Certificate, CheckFault, END, check, read_certificate, spell_certificate};
use replay_audit::{Audited, audit};
use rtr_types::Which;
use std::alloc::{AllocError, Global};
use std::test::Fail;

/// A certificate of two cores: 0:3 stores to word 16 before 1:2 loads it, and 1:3 stores to it before 0:4
/// loads it.
static SHORT: [u8; 63] = [
    0x52, 0x54, 0x52, 2, 2, 0x90, 0x4e, 0x20, 0x20, 0x63, 0x1a, 5, 0, 0x93, 2, 0x70, 0, 0x23, 0x20,
    0x50, 4, 3, 0x23, 0, 4, 0x73, 0, 0, 0, 0x83, 0x23, 0, 4, 0x23, 0x20, 0xa0, 4, 0x73, 0, 0, 0, 5,
    4, 1, 4, 1, 3, 1, 2, 0, 3, 0, 0, 2, 3, 0, 4, 3, 2, 3, 2, 3, 3,
];

/// How the bytes of a certificate were judged.
#[derive(Clone, Copy, Debug, PartialEq, Eq)]
enum Verdict {
    /// No certificate, with a part that is named.
    Unread,
    /// The audit refused the recording.
    Unordered,
    /// The certificate doesn't show its log least.
    Refused,
    /// It does.
    Accepted,
    /// A check and the slow judge differ, or memory ran out.
    Apart,
}

/// What the slow judge says of a certificate whose recording was audited.
fn by_definition(
    alloc: Global,
    certificate: &Certificate,
    audited: &Audited,
) -> Result<Result<(), CheckFault>, AllocError>
    requires { Valid certificate.now.recording }
{
    let ends = EdgeEnds::new(alloc, &certificate.recording)?;
    let judge = SlowJudge {
        certificate,
        edges: ends.edges(),
        accesses: audited.accesses(),
    };
    match judge.failure() {
        Some(failure) => Ok(Err(CheckFault::Failed(failure))),
        None => Ok(Ok(())),
    }
}

/// How a check and the slow judge judge a certificate of these bytes, which are its spelling or are in the
/// first version.
fn judgement(alloc: Global, bytes: &[u8]) -> Result<Verdict, Fail> {
    let certificate = match read_certificate(alloc, bytes) {
        Ok(certificate) => certificate,
        Err(CodecFault::Bad { part }) if 1 <= part && part <= END => return Ok(Verdict::Unread),
        Err(_) => return Ok(Verdict::Apart),
    };
    let again = spell_certificate(alloc, &certificate)?;
    if bytes.get(3) == Some(&2) && again.as_slice() != bytes {
        return Ok(Verdict::Apart);
    }
    let checked = check(alloc, &certificate);
    let (recording, _) = read_front(alloc, bytes)?;
    match audit(alloc, recording, Which::Reduced) {
        Err(fault) => Ok(if checked == Err(CheckFault::Audit(fault)) {
            Verdict::Unordered
        } else {
            Verdict::Apart
        }),
        Ok(audited) => Ok(match by_definition(alloc, &certificate, &audited)? {
            Ok(()) if checked == Ok(()) => Verdict::Accepted,
            Err(fault) if checked == Err(fault) => Verdict::Refused,
            _ => Verdict::Apart,
        }),
    }
}

/// How many bytes were judged in each way.
#[derive(Clone, Copy, Default)]
struct Tally {
    unread: u32,
    unordered: u32,
    refused: u32,
    accepted: u32,
}

/// One more that was judged so.
fn counted(tally: Tally, judged: Verdict) -> Tally {
    let mut more = tally;
    match judged {
        Verdict::Unread => more.unread = more.unread.saturating_add(1),
        Verdict::Unordered => more.unordered = more.unordered.saturating_add(1),
        Verdict::Refused => more.refused = more.refused.saturating_add(1),
        Verdict::Accepted => more.accepted = more.accepted.saturating_add(1),
        Verdict::Apart => {}
    }
    more
}

// Each byte is given each other value, and each way of being judged comes.
#[test]
fn each_byte_changed_in_turn(rt: HostRuntime) -> Result<(), Fail> {
    let alloc = rt.alloc();
    let mut tally = Tally::default();
    for place in 0..SHORT.len() {
        for value in 0..=255u8 {
            let mut bytes = Vec::from_slice(alloc, &SHORT)?;
            if bytes[place] != value {
                bytes[place] = value;
                let judged = judgement(alloc, &bytes)?;
                assert!(rt; judged != Verdict::Apart, "byte {place} is {value}");
                tally = counted(tally, judged);
            }
        }
    }
    assert!(rt; tally.unread > 0 && tally.unordered > 0);
    assert!(rt; tally.refused > 0 && tally.accepted > 0);
    Ok(())
}
