//! Audits by either log, and judgements by what an audit's low order touched.
ghost use Rattle.std.specs.Prelude.{◌≡◌, [], ◌∷◌, IfOk};
ghost use Rattle.race_log.specs.Validity.{Valid};
ghost use Rattle.replay_audit.specs.Touches.{AreTouches, as_touch};

use log_codec::read;
use race_log::Recording;
use replay_audit::{AuditFault, Audited, Touch, audit, judge, ordered};
use row_texts::{HANDED_OVER, STORES};
use rtr_types::{Access, CORES_MAX, Cut, Instr, Items, Which};
use std::alloc::{AllocError, Global};
use std::test::Fail;

/// A place for each core, as the length of an array.
const PLACES: usize = CORES_MAX as usize;

/// The recording of the stores of so many cores, with these totals and logs.
fn stores(alloc: Global, cores: u8, logs: &[u8]) -> Result<Recording, Fail>
    ensures { IfOk result (λ recording. Valid recording) }
{
    let mut bytes = Vec::from_slice(alloc, &STORES)?;
    bytes[4] = cores;
    bytes.extend_from_slice(logs)?;
    Ok(read(alloc, &bytes)?)
}

/// Why the stores aren't determinate by the log, if they aren't.
fn refused(
    alloc: Global,
    cores: u8,
    logs: &[u8],
    which: Which,
) -> Result<Option<AuditFault>, Fail> {
    let recording = stores(alloc, cores, logs)?;
    Ok(audit(alloc, recording, which).err())
}

/// Whether the reduced log of two stores has a whole low order.
fn is_ordered(alloc: Global, logs: &[u8]) -> Result<bool, Fail> {
    let recording = stores(alloc, 2, logs)?;
    Ok(ordered(alloc, &recording, Which::Reduced)?)
}

/// That the second instruction of one core and that of another are unordered.
fn unordered(first: u8, second: u8) -> Option<AuditFault> {
    Some(AuditFault::Undetermined {
        first: Instr {
            core: first,
            count: 2,
        },
        second: Instr {
            core: second,
            count: 2,
        },
    })
}

// A log that goes round.
#[test]
fn a_log_that_goes_round(rt: HostRuntime) -> Result<(), Fail> {
    let mut counts = [0; PLACES];
    counts[0] = 1;
    counts[1] = 1;
    let cut = Cut { cores: 2, counts };
    let round = [3, 3, 1, 2, 2, 1, 2, 2, 0, 0];
    let stuck = Some(AuditFault::Stuck { cut });
    assert!(rt; refused(rt.alloc(), 2, &round, Which::Reduced)? == stuck);
    assert!(rt; !is_ordered(rt.alloc(), &round)?);
    Ok(())
}

// A total past the program's end.
#[test]
fn a_total_too_great(rt: HostRuntime) -> Result<(), Fail> {
    let past = [4, 3, 1, 2, 2, 0, 0, 0];
    let short = Some(AuditFault::Short { core: 0, count: 3 });
    assert!(rt; refused(rt.alloc(), 2, &past, Which::Reduced)? == short);
    assert!(rt; is_ordered(rt.alloc(), &past)?);
    Ok(())
}

// Two stores that only the reduced log orders, and three of which it orders two.
#[test]
fn stores_that_are_left_open(rt: HostRuntime) -> Result<(), Fail> {
    let alloc = rt.alloc();
    let two = [3, 3, 1, 2, 2, 0, 0, 0];
    assert!(rt; refused(alloc, 2, &two, Which::Reduced)?.is_none());
    assert!(rt; refused(alloc, 2, &two, Which::Regulated)? == unordered(0, 1));
    let three = [3, 3, 3, 1, 2, 2, 0, 0, 0, 0, 0, 0, 0, 0, 0, 0, 0];
    assert!(rt; refused(alloc, 3, &three, Which::Reduced)? == unordered(1, 2));
    Ok(())
}

/// The access without its values, in a list of its own.
fn touch_of(alloc: Global, access: &Access) -> Result<Items<Touch>, AllocError>
    ensures { IfOk result (λ list. list ≡ as_touch access.now ∷ []) }
{
    let mut list = Items::new(alloc);
    list.push(Touch {
        at: access.at,
        word: access.word,
        kind: access.kind,
    })?;
    Ok(list)
}

/// What an access of core 0 and one of core 1 touched, by core.
fn touched_by(
    alloc: Global,
    first: &Access,
    second: &Access,
) -> Result<Vec<Items<Touch>>, AllocError>
    requires first { first.now.at.core ≡ 0 }
    requires second { second.now.at.core ≡ 1 }
    ensures { IfOk result (λ touched. AreTouches (first.now ∷ second.now ∷ []) 2 touched.items) }
{
    let mut touched = Vec::new(alloc);
    touched.push(touch_of(alloc, first)?)?;
    touched.push(touch_of(alloc, second)?)?;
    Ok(touched)
}

/// The judgement by what the low order of an audit touched, where that is once by core 0 and then once by core 1.
fn judged(alloc: Global, audited: &Audited) -> Result<Option<bool>, AllocError> {
    let recording = audited.recording();
    let [first, second] = audited.accesses() else {
        return Ok(None);
    };
    if first.at.core != 0 || second.at.core != 1 || recording.totals.len() != 2 {
        return Ok(None);
    }
    let touched = touched_by(alloc, first, second)?;
    Ok(Some(judge(alloc, recording, audited.which(), touched.as_slice())?))
}

// Two stores that the reduced log orders, judged by what they touched.
#[test]
fn stores_that_are_judged(rt: HostRuntime) -> Result<(), Fail> {
    let two = [3, 3, 1, 2, 2, 0, 0, 0];
    let audited = audit(rt.alloc(), stores(rt.alloc(), 2, &two)?, Which::Reduced)?;
    assert!(rt; judged(rt.alloc(), &audited)? == Some(true));
    Ok(())
}

/// Whether the log is this one, and the audit has four accesses, the whole memory, and a clock by which 1:3
/// leads to 0:4.
fn is_handed_over(audited: &Audited, which: Which) -> bool {
    let totals = audited.recording().totals.as_slice();
    if totals.is_empty() || totals[0] < 4 {
        return false;
    }
    let clock = audited.clock(Instr { core: 0, count: 4 });
    audited.which() == which
        && audited.accesses().len() == 4
        && audited.outcome().words.len() == 32
        && (clock.get(0), clock.get(1)) == (4, 3)
}

// What an audit hands on.
#[test]
fn a_word_handed_over(rt: HostRuntime) -> Result<(), Fail> {
    for which in [Which::Reduced, Which::Regulated] {
        let audited = audit(rt.alloc(), read(rt.alloc(), &HANDED_OVER)?, which)?;
        assert!(rt; is_handed_over(&audited, which));
        let (recording, outcome) = audited.into_parts();
        assert!(rt; (recording.image.len(), outcome.cores.len()) == (32, 2));
    }
    Ok(())
}
