//! A history of two cores, of which one is never told anything.
ghost use Rattle.std.specs.Prelude.{◌≡◌, IfOk};
ghost use Rattle.know_history.specs.Notes.{core_count, noted_count};

use access_times::Carry;
use know_history::{History, Known};
use rtr_types::Instr;
use std::alloc::{AllocError, Global};
use std::process::Abort;
use std::test::Fail;

/// The carry of a core that knew this much and then retired the instruction.
fn retired(known: Known, at: Instr) -> Known {
    let mut later = known;
    later.retire(at);
    later
}

/// The instruction of the core with this count.
fn instr(core: u8, count: u32) -> Instr
    ensures { result ≡ record { core = core; count = count } }
{
    Instr { core, count }
}

#[test]
fn what_was_known_stays_noted(rt: HostRuntime) -> Result<(), Fail> {
    let mut told = Known::none();
    told.join(&retired(Known::none(), instr(0, 3)));
    let first = retired(told, instr(1, 1));
    let second = retired(Known::none(), instr(1, 2));
    assert!(rt; (first.count(0), second.count(0)) == (3, 0));
    assert!(rt; first.counts().get(1).copied() == Some(1));
    let history = noted(&rt, rt.alloc(), &first, &second)?;
    is_noted(&rt, &history);
    Ok(())
}

/// The history of core 0's first instruction, which knew of nothing, and of core 1's first two with what they knew.
fn noted(
    rt: &impl Abort,
    alloc: Global,
    first: &Known,
    second: &Known,
) -> Result<History, AllocError>
    ensures cores { IfOk result (λ history. core_count history.notes ≡ 2) }
    ensures alone { IfOk result (λ history. noted_count history.notes 0 ≡ 1) }
    ensures both { IfOk result (λ history. noted_count history.notes 1 ≡ 2) }
{
    let mut history = History::new(alloc, 2)?;
    history.ready()?;
    assert!(rt; history.is_ready());
    history.note(instr(0, 1), &retired(Known::none(), instr(0, 1)));
    history.ready()?;
    history.note(instr(1, 1), first);
    history.ready()?;
    history.note(instr(1, 2), second);
    Ok(history)
}

/// What core 1's first instruction knew is known at its second as well, and changed once.
fn is_noted(rt: &impl Abort, history: &History)
    requires cores { core_count history.now.notes ≡ 2 }
    requires alone { noted_count history.now.notes 0 ≡ 1 }
    requires both { noted_count history.now.notes 1 ≡ 2 }
{
    assert!(rt; (history.at(1, 1, 0), history.at(1, 2, 0)) == (3, 3));
    assert!(rt; (history.at(0, 1, 1), history.changes(0, 1)) == (0, 0));
    assert!(rt; history.changes(1, 0) == 1);
}
