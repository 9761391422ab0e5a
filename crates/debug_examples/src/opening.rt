//! The cuts at which the order of an edge's two instructions was open, on the run of three cores.
use crate::recordings::three;
use min_certificate::certify;
use race_cuts::{first_cut, last_cut};
use replay_audit::Audited;
use rtr_types::{Cut, Instr, Which};
use std::alloc::Global;
use std::test::Fail;

/// The first and the last cut of the edge from this core to an instruction, if there is one. The log is certified to be
/// least before.
fn open_cuts(
    alloc: Global,
    audited: &Audited,
    core: u8,
    target: Instr,
) -> Result<Option<(Cut, Cut)>, Fail> {
    if audited.which() != Which::Reduced {
        return Ok(None);
    }
    let _certificate = certify(alloc, audited)?;
    let Some(count) = audited.recording().source(Which::Reduced, core, target) else {
        return Ok(None);
    };
    let source = Instr { core, count };
    let first = first_cut(audited, source, target)?;
    let last = last_cut(audited, source, target)?;
    Ok(Some((first, last)))
}

/// The counts of the three cores at these cuts.
fn counts(cuts: Option<(Cut, Cut)>) -> Option<([u32; 3], [u32; 3])> {
    let (first, last) = cuts?;
    let [a, b, c, ..] = first.counts;
    let [d, e, f, ..] = last.counts;
    Some(([a, b, c], [d, e, f]))
}

// Core 0 stores at 0:3, which core 1 loads at 1:2; core 2 loads it at 2:2, before core 1 stores at 1:3.
#[test]
fn orders_were_open(rt: HostRuntime) -> Result<(), Fail> {
    let audited = three(rt.alloc(), Which::Reduced)?;
    let loaded = open_cuts(rt.alloc(), &audited, 0, Instr { core: 1, count: 2 })?;
    assert!(rt; counts(loaded) == Some(([2, 1, 0], [2, 1, 1])));
    let stored = open_cuts(rt.alloc(), &audited, 2, Instr { core: 1, count: 3 })?;
    assert!(rt; counts(stored) == Some(([3, 2, 1], [3, 2, 1])));
    let nothing = open_cuts(rt.alloc(), &audited, 2, Instr { core: 1, count: 2 })?;
    assert!(rt; counts(nothing) == None);
    Ok(())
}
