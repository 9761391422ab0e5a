//! What is asked of the word that three cores hand on.
use crate::recordings::{cut_of, three};
use cut_replay::has_instr;
use log_codec::read;
use race_queries::{
    Ends, conflicts_of, edges_into, edges_out_of, history, last_write, leads_to, log_ends,
    reads_since,
};
use replay_audit::{Audited, audit};
use row_texts::Counts;
use rtr_types::{Access, Instr, Which};
use std::alloc::{AllocError, Global};
use std::test::Fail;

/// The instruction.
fn instr(core: u8, count: u32) -> Instr {
    Instr { core, count }
}

/// Whether these are the accesses of these instructions.
fn are_at(accesses: &[Access], at: &[Instr]) -> bool {
    if accesses.len() != at.len() {
        return false;
    }
    for k in 0..at.len() {
        if accesses[k].at != at[k] {
            return false;
        }
    }
    true
}

/// The last write of word 16 in the cut with these counts: its instruction, and what it replaced and left.
fn written(audited: &Audited, counts: Counts) -> Option<(Instr, u32, u32)> {
    let cut = cut_of(audited.recording(), counts)?;
    let access = last_write(audited, &cut, 16)?;
    Some((access.at, access.before, access.after))
}

// No write yet, the first, and one of another core.
#[test]
fn last_writes(rt: HostRuntime) -> Result<(), Fail> {
    let audited = three(rt.alloc(), Which::Reduced)?;
    assert!(rt; written(&audited, Counts::new(2, 1, 1)) == None);
    assert!(rt; written(&audited, Counts::new(3, 2, 2)) == Some((instr(0, 3), 0, 7)));
    assert!(rt; written(&audited, Counts::new(3, 3, 2)) == Some((instr(1, 3), 7, 1)));
    assert!(rt; written(&audited, Counts::new(5, 4, 4)) == Some((instr(2, 3), 1, 2)));
    Ok(())
}

/// Whether these loads of word 16 came since the last write of the cut.
fn loaded(
    alloc: Global,
    audited: &Audited,
    counts: Counts,
    at: &[Instr],
) -> Result<bool, AllocError> {
    let Some(cut) = cut_of(audited.recording(), counts) else {
        return Ok(false);
    };
    let list = reads_since(alloc, audited, &cut, 16)?;
    Ok(are_at(list.as_slice(), at))
}

// Both other cores have loaded what core 0 stored, one of them alone, and nobody what core 1 stored.
#[test]
fn loads_since(rt: HostRuntime) -> Result<(), Fail> {
    let audited = three(rt.alloc(), Which::Reduced)?;
    let both = [instr(1, 2), instr(2, 2)];
    assert!(rt; loaded(rt.alloc(), &audited, Counts::new(3, 2, 2), &both)?);
    assert!(rt; loaded(rt.alloc(), &audited, Counts::new(3, 2, 0), &[instr(1, 2)])?);
    assert!(rt; loaded(rt.alloc(), &audited, Counts::new(3, 3, 2), &[])?);
    assert!(rt; loaded(rt.alloc(), &audited, Counts::new(5, 4, 4), &[instr(0, 4)])?);
    Ok(())
}

// All accesses to the word, and to one that nobody uses.
#[test]
fn histories(rt: HostRuntime) -> Result<(), Fail> {
    let audited = three(rt.alloc(), Which::Reduced)?;
    let list = history(rt.alloc(), &audited, 16)?;
    let all = [
        instr(0, 3),
        instr(1, 2),
        instr(2, 2),
        instr(1, 3),
        instr(2, 3),
        instr(0, 4),
    ];
    assert!(rt; are_at(list.as_slice(), &all));
    assert!(rt; history(rt.alloc(), &audited, 17)?.len() == 0);
    Ok(())
}

/// One core that loads word 16 and jumps back, till it has retired 10,000 instructions.
const LOADS_ALONE: [u8; 19] = [
    0x52, 0x54, 0x52, 2, 1, 0x90, 0x4e, 32, 8, 0x83, 0x22, 0, 4, 0x6f, 0xf0, 0xdf, 0xff, 0x90, 0x4e,
];

// Every second instruction is an access to the word.
#[test]
fn a_history_of_5000_accesses(rt: HostRuntime) -> Result<(), Fail> {
    let recording = read(rt.alloc(), &LOADS_ALONE)?;
    let audited = audit(rt.alloc(), recording, Which::Reduced)?;
    let list = history(rt.alloc(), &audited, 16)?;
    assert!(rt; list.len() == 5_000);
    let last = list.as_slice().last();
    assert!(rt; last.map(|access| access.at) == Some(instr(0, 9_999)));
    Ok(())
}

/// Whether the instruction's access conflicts with those of these instructions, before it and behind it.
fn conflicts(
    alloc: Global,
    audited: &Audited,
    at: Instr,
    earlier: &[Instr],
    later: &[Instr],
) -> Result<bool, AllocError> {
    match conflicts_of(alloc, audited, at)? {
        Some(found) => Ok(
            found.access.at == at
                && are_at(found.earlier.as_slice(), earlier)
                && are_at(found.later.as_slice(), later),
        ),
        None => Ok(false),
    }
}

// A store conflicts with the last write and the loads since, a load with writes alone, a core's own accesses with none
// of them, and an instruction without an access with nothing.
#[test]
fn conflicting(rt: HostRuntime) -> Result<(), Fail> {
    let audited = three(rt.alloc(), Which::Reduced)?;
    let front = [instr(0, 3), instr(2, 2)];
    assert!(rt; conflicts(rt.alloc(), &audited, instr(1, 3), &front, &[instr(2, 3)])?);
    assert!(rt; conflicts(rt.alloc(), &audited, instr(1, 2), &[instr(0, 3)], &[])?);
    assert!(rt; conflicts(rt.alloc(), &audited, instr(0, 4), &[instr(2, 3)], &[])?);
    assert!(rt; conflicts_of(rt.alloc(), &audited, instr(0, 1))?.is_none());
    Ok(())
}

// Edges into instructions, and out of them.
#[test]
fn edges(rt: HostRuntime) -> Result<(), Fail> {
    let audited = three(rt.alloc(), Which::Reduced)?;
    let into = edges_into(rt.alloc(), &audited, instr(1, 3))?;
    assert!(rt; into.as_slice() == [instr(2, 2)].as_slice());
    let out = edges_out_of(rt.alloc(), &audited, instr(0, 3))?;
    assert!(rt; out.as_slice() == [instr(1, 2), instr(2, 2)].as_slice());
    assert!(rt; edges_into(rt.alloc(), &audited, instr(0, 5))?.len() == 0);
    assert!(rt; edges_out_of(rt.alloc(), &audited, instr(0, 5))?.len() == 0);
    Ok(())
}

// The regulated log has two edges into the last instruction of core 0.
#[test]
fn regulated_edges(rt: HostRuntime) -> Result<(), Fail> {
    let audited = three(rt.alloc(), Which::Regulated)?;
    let into = edges_into(rt.alloc(), &audited, instr(0, 5))?;
    assert!(rt; into.as_slice() == [instr(1, 4), instr(2, 4)].as_slice());
    let out = edges_out_of(rt.alloc(), &audited, instr(1, 4))?;
    assert!(rt; out.as_slice() == [instr(0, 5)].as_slice());
    Ok(())
}

/// The edge at a place of a list, and the words that its instructions access.
fn edge_at(list: &[Ends], place: usize) -> Option<(Instr, Instr, Option<u32>, Option<u32>)> {
    let ends = list.get(place)?;
    let from = ends.from.map(|access| access.word);
    let to = ends.to.map(|access| access.word);
    Some((ends.edge.from, ends.edge.to, from, to))
}

// All edges of the reduced log access the word, and of the regulated log all but those between last instructions.
#[test]
fn all_edges(rt: HostRuntime) -> Result<(), Fail> {
    let audited = three(rt.alloc(), Which::Reduced)?;
    let list = log_ends(rt.alloc(), &audited)?;
    assert!(rt; list.len() == 5);
    let last = Some((instr(2, 2), instr(1, 3), Some(16), Some(16)));
    assert!(rt; edge_at(list.as_slice(), 4) == last);
    Ok(())
}

#[test]
fn all_regulated_edges(rt: HostRuntime) -> Result<(), Fail> {
    let audited = three(rt.alloc(), Which::Regulated)?;
    let list = log_ends(rt.alloc(), &audited)?;
    assert!(rt; list.len() == 7);
    let ending = Some((instr(1, 4), instr(0, 5), None, None));
    assert!(rt; edge_at(list.as_slice(), 2) == ending);
    Ok(())
}

/// Whether the one instruction comes before the other, and the other before the one, if both are the recording's.
fn both_ways(audited: &Audited, at: Instr, other: Instr) -> Option<(bool, bool)> {
    let recording = audited.recording();
    if !has_instr(recording, at) || !has_instr(recording, other) {
        return None;
    }
    Some((leads_to(audited, at, other), leads_to(audited, other, at)))
}

// Before by program order and by edges of other cores, unordered, and the same.
#[test]
fn orders(rt: HostRuntime) -> Result<(), Fail> {
    let audited = three(rt.alloc(), Which::Reduced)?;
    assert!(rt; both_ways(&audited, instr(0, 3), instr(0, 4)) == Some((true, false)));
    assert!(rt; both_ways(&audited, instr(0, 5), instr(1, 1)) == Some((false, true)));
    assert!(rt; both_ways(&audited, instr(0, 5), instr(1, 4)) == Some((false, false)));
    assert!(rt; both_ways(&audited, instr(1, 2), instr(1, 2)) == Some((false, false)));
    assert!(rt; both_ways(&audited, instr(1, 2), instr(3, 1)) == None);
    Ok(())
}
