//! Certificates that were worked out by hand.
ghost use Rattle.std.specs.Prelude.{◌≡◌, IfOk};
ghost use Rattle.rtr_types.specs.declared.pairs.Which.TheVariants.{Reduced};
ghost use Rattle.certificate_codec.specs.Validity.{IsCertificate};

use log_codec::read;
use min_certificate::{
    CertFault, Certificate, CheckFailure, CheckFault, certify, check, read_certificate,
    spell_certificate,
};
use replay_audit::{AuditFault, Audited, audit};
use row_texts::HANDED_OVER_REDUCED;
use rtr_types::{Edge, Instr, Which};
use std::alloc::Global;
use std::test::Fail;

/// Three cores: 1:3 loads word 16, 1:4 stores word 32, 2:4 loads word 32, 2:5 loads word 16, 0:4 stores
/// word 16. The edge from 1:3 to 0:4 is implied by those from 1:4 to 2:4 and from 2:5 to 0:4.
const IMPLIED: &[u8] = &[
    0x52, 0x54, 0x52, 1, 3, 0x90, 0x4e, 0x40, 0x2c, 0x93, 2, 0x10, 0, 0x63, 8, 0x55, 0, 0x63, 0x1c,
    5, 0, 0x23, 0x20, 0x50, 4, 0x73, 0, 0, 0, 3, 0x23, 0, 4, 0x23, 0x20, 0x50, 8, 0x73, 0, 0, 0,
    0x83, 0x23, 0, 8, 3, 0x23, 0, 4, 0x73, 0, 0, 0, 5, 5, 6, 0, 0, 1, 4, 3, 1, 4, 4, 1, 4, 5, 0, 0,
    0, 0, 0, 0, 0,
];

/// Two cores that store to word 8 at their second instruction. The edge leads from 0:3, which makes no
/// access, to 1:2.
const NO_CONFLICT: &[u8] = &[
    0x52, 0x54, 0x52, 1, 2, 0x90, 0x4e, 0x10, 0x0c, 0x93, 2, 0x55, 0, 0x23, 0x20, 0x50, 2, 0x73, 0,
    0, 0, 3, 3, 1, 2, 3, 0, 0, 0,
];

/// The same two cores with a log that goes round.
const ROUND: &[u8] = &[
    0x52, 0x54, 0x52, 1, 2, 0x90, 0x4e, 0x10, 0x0c, 0x93, 2, 0x55, 0, 0x23, 0x20, 0x50, 2, 0x73, 0,
    0, 0, 3, 3, 1, 2, 2, 1, 2, 2, 0, 0,
];

/// The certificate of these bytes.
fn certificate_of(alloc: Global, recording: &[u8], clocks: &[u8]) -> Result<Certificate, Fail>
    ensures { IfOk result IsCertificate }
{
    let mut bytes = Vec::from_slice(alloc, recording)?;
    bytes.extend_from_slice(clocks)?;
    Ok(read_certificate(alloc, &bytes)?)
}

const IMPLIED_EDGE: Edge = Edge {
    from: Instr { core: 1, count: 3 },
    to: Instr { core: 0, count: 4 },
};

const LOOSE_EDGE: Edge = Edge {
    from: Instr { core: 0, count: 3 },
    to: Instr { core: 1, count: 2 },
};

/// A recording, and the clocks that certifying it gives, or why there are none.
struct Certified {
    recording: &'static [u8],
    answer: Result<&'static [u8], CertFault>,
}

static CERTIFIED: [Certified; 3] = [
    Certified {
        recording: &HANDED_OVER_REDUCED,
        answer: Ok(&[2, 3, 0, 4, 3, 2, 3, 2, 3, 3]),
    },
    Certified {
        recording: IMPLIED,
        answer: Err(CertFault::NotLeast { edge: IMPLIED_EDGE }),
    },
    Certified {
        recording: NO_CONFLICT,
        answer: Err(CertFault::NotLeast { edge: LOOSE_EDGE }),
    },
];

/// Whether a certificate is accepted, ends with these clocks, and is read back from its bytes and accepted then too.
fn is_accepted(alloc: Global, certificate: &Certificate, clocks: &[u8]) -> Result<bool, Fail>
    requires { IsCertificate certificate.now }
{
    let bytes = spell_certificate(alloc, certificate)?;
    let again = read_certificate(alloc, &bytes)?;
    let both = check(alloc, certificate) == Ok(()) && check(alloc, &again) == Ok(());
    Ok(both && bytes.ends_with(clocks))
}

/// Whether certifying an audited recording answers so.
fn is_certified(
    alloc: Global,
    audited: &Audited,
    answer: &Result<&'static [u8], CertFault>,
) -> Result<bool, Fail>
    requires { audited.now.which ≡ Reduced }
{
    match (certify(alloc, audited), answer) {
        (Ok(certificate), Ok(clocks)) => is_accepted(alloc, &certificate, clocks),
        (Err(fault), Err(wanted)) => Ok(fault == *wanted),
        _ => Ok(false),
    }
}

// A certificate that certifying gives is the recording and these clocks, is accepted, and is read back from its bytes.
#[test]
fn what_is_certified(rt: HostRuntime) -> Result<(), Fail> {
    for row in &CERTIFIED {
        let recording = read(rt.alloc(), row.recording)?;
        let audited = audit(rt.alloc(), recording, Which::Reduced)?;
        assert!(rt; is_certified(rt.alloc(), &audited, &row.answer)?);
    }
    Ok(())
}

/// A recording with clocks, and what a check says of them.
struct Checked {
    recording: &'static [u8],
    clocks: &'static [u8],
    answer: Result<(), CheckFault>,
}

static CHECKED: [Checked; 4] = [
    Checked {
        recording: &HANDED_OVER_REDUCED,
        clocks: &[2, 3, 0, 4, 3, 2, 3, 2, 3, 3],
        answer: Ok(()),
    },
    Checked {
        recording: &HANDED_OVER_REDUCED,
        clocks: &[2, 3, 0, 4, 2, 2, 3, 2, 3, 3],
        answer: Err(CheckFault::Failed(CheckFailure::BadClock { core: 0, entry: 2 })),
    },
    Checked {
        recording: IMPLIED,
        clocks: &[1, 4, 4, 5, 2, 0, 3, 0, 0, 4, 0, 2, 0, 4, 4, 0, 4, 5],
        answer: Err(CheckFault::Failed(CheckFailure::NotNeeded { edge: IMPLIED_EDGE })),
    },
    Checked {
        recording: NO_CONFLICT,
        clocks: &[1, 3, 0, 1, 3, 2],
        answer: Err(CheckFault::Failed(CheckFailure::NotConflict { edge: LOOSE_EDGE })),
    },
];

#[test]
fn what_is_checked(rt: HostRuntime) -> Result<(), Fail> {
    for row in &CHECKED {
        let certificate = certificate_of(rt.alloc(), row.recording, row.clocks)?;
        assert!(rt;
            check(rt.alloc(), &certificate) == row.answer,
            "{:?}",
            row.clocks
        );
    }
    Ok(())
}

#[test]
fn an_audit_that_fails(rt: HostRuntime) -> Result<(), Fail> {
    let certificate = certificate_of(rt.alloc(), ROUND, &[1, 2, 2, 1, 2, 2])?;
    let stuck = match check(rt.alloc(), &certificate) {
        Err(CheckFault::Audit(AuditFault::Stuck { cut })) => (cut.counts[0], cut.counts[1]),
        _ => (0, 0),
    };
    assert!(rt; stuck == (1, 1));
    Ok(())
}
