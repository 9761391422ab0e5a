//! Cuts and the states at them, of recordings of two and of three cores.
ghost use Rattle.std.specs.Prelude.{IfOk, IfSome};
ghost use Rattle.cut_replay.specs.ClosedCuts.{IsClosed};

use crate::slow_cuts::{numbered, slow_with, slow_without};
use cut_replay::{cut_with, cut_without, has_instr, state_of};
use log_codec::read;
use replay_audit::{Audited, audit};
use row_texts::{Counts, HANDED_ON, HANDED_OVER};
use rtr_types::{Cut, Instr, Which};
use rv_core::{LoadNote, Outcome};
use std::alloc::{AllocError, Global};
use std::test::Fail;

/// A cut beside an instruction.
#[derive(Clone, Copy)]
enum Side {
    /// The least one with it.
    With,
    /// The greatest one without it.
    Without,
}

/// The cut on this side of the instruction, if it is one.
fn cut_at(audited: &Audited, at: Instr, side: Side) -> Result<Option<Cut>, AllocError>
    ensures { IfOk result (λ cut. IfSome cut (IsClosed audited.now.which audited.now.recording)) }
{
    if !has_instr(audited.recording(), at) {
        return Ok(None);
    }
    let cut = match side {
        Side::With => cut_with(audited, at)?,
        Side::Without => cut_without(audited, at)?,
    };
    Ok(Some(cut))
}

/// Its counts.
fn counts_at(audited: &Audited, at: Instr, side: Side) -> Result<Option<Counts>, AllocError> {
    Ok(match cut_at(audited, at, side)? {
        Some(cut) => Some(Counts::of(&cut)),
        None => None,
    })
}

/// The state at it.
fn state_at(
    alloc: Global,
    audited: &Audited,
    at: Instr,
    side: Side,
) -> Result<Option<Outcome>, AllocError> {
    Ok(match cut_at(audited, at, side)? {
        Some(cut) => Some(state_of(alloc, audited, &cut)?),
        None => None,
    })
}

/// Whether the two cuts of the instruction are those that the slow search finds.
fn is_found(audited: &Audited, at: Instr) -> Result<bool, AllocError> {
    let with = counts_at(audited, at, Side::With)?;
    let without = counts_at(audited, at, Side::Without)?;
    Ok(with == Some(slow_with(at)) && without == Some(slow_without(at)))
}

// Each instruction of three cores.
#[test]
fn each_instruction(rt: HostRuntime) -> Result<(), Fail> {
    let audited = audit(rt.alloc(), read(rt.alloc(), &HANDED_ON)?, Which::Reduced)?;
    for number in 0..13 {
        assert!(rt; is_found(&audited, numbered(number))?);
    }
    Ok(())
}

/// Whether the least cut with an instruction of the three cores has these counts, by the log.
fn has_cut(alloc: Global, which: Which, at: Instr, counts: Counts) -> Result<bool, Fail> {
    let audited = audit(alloc, read(alloc, &HANDED_ON)?, which)?;
    Ok(counts_at(&audited, at, Side::With)? == Some(counts))
}

// An instruction without a source.
#[test]
fn without_a_source(rt: HostRuntime) -> Result<(), Fail> {
    let own = Counts::new(0, 1, 0);
    assert!(rt; has_cut(rt.alloc(), Which::Reduced, Instr { core: 1, count: 1 }, own)?);
    Ok(())
}

// The last instruction: by the regulated log all lead to it.
#[test]
fn the_last_one(rt: HostRuntime) -> Result<(), Fail> {
    let all = Counts::new(5, 4, 4);
    assert!(rt;
        has_cut(
            rt.alloc(),
            Which::Regulated,
            Instr { core: 0, count: 5 },
            all
        )?
    );
    Ok(())
}

// What is an instruction, and what isn't: a count of 0, one past the total, and a core that isn't there.
#[test]
fn instructions(rt: HostRuntime) -> Result<(), Fail> {
    let recording = read(rt.alloc(), &HANDED_ON)?;
    assert!(rt; has_instr(&recording, Instr { core: 0, count: 5 }));
    assert!(rt; !has_instr(&recording, Instr { core: 0, count: 0 }));
    assert!(rt; !has_instr(&recording, Instr { core: 0, count: 6 }));
    assert!(rt; !has_instr(&recording, Instr { core: 3, count: 1 }));
    Ok(())
}

/// The state beside the load of core 1, by the log.
fn state_by(alloc: Global, which: Which, side: Side) -> Result<Option<Outcome>, Fail> {
    let audited = audit(alloc, read(alloc, &HANDED_OVER)?, which)?;
    Ok(state_at(alloc, &audited, Instr { core: 1, count: 2 }, side)?)
}

/// Whether core 0 has stored its word, and core 1 has come this far, with this register and these loads.
fn is_left(
    outcome: &Option<Outcome>,
    count: u32,
    pc: u32,
    loaded: u32,
    loads: &[LoadNote],
) -> bool {
    let Some(outcome) = outcome else {
        return false;
    };
    let [first, second] = outcome.cores.as_slice() else {
        return false;
    };
    let [ones, others] = outcome.loads.as_slice() else {
        return false;
    };
    (first.count(), first.pc(), first.reg(5), first.reg(6)) == (3, 0xc, 7, 0)
        && (second.count(), second.pc(), second.reg(7), second.reg(10)) == (count, pc, loaded, 1)
        && outcome.words.as_slice().get(16).copied() == Some(7)
        && ones.as_slice().is_empty()
        && others.as_slice() == loads
}

// Right after a load: core 0's store was before it.
#[test]
fn after_a_load(rt: HostRuntime) -> Result<(), Fail> {
    let outcome = state_by(rt.alloc(), Which::Regulated, Side::With)?;
    let load = LoadNote {
        count: 2,
        word: 16,
        value: 7,
    };
    assert!(rt; is_left(&outcome, 2, 0x18, 7, &[load]));
    Ok(())
}

// As late as can be before it: the store is there too, and the load isn't.
#[test]
fn before_a_load(rt: HostRuntime) -> Result<(), Fail> {
    let outcome = state_by(rt.alloc(), Which::Reduced, Side::Without)?;
    assert!(rt; is_left(&outcome, 1, 0x14, 0, &[]));
    Ok(())
}
