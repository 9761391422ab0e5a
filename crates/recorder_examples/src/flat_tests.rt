//! Runs of the flat machine against runs of the machine whose copies have words.
ghost use Rattle.std.specs.Prelude.{◌≤◌};

use crate::keeper::image_of;
use crate::settings::{leaves, params_of};
use flat_run::run_flat;
use msi_run::{Ran, run_image};
use schedule_pick::Schedule;
use std::alloc::Global;
use std::process::Abort;
use std::test::Fail;

/// addi x5,x0,4; addi x28,x0,64; amoadd.w x6,x5,(x28); sw x6,320(x0); lw x7,320(x0); addi x5,x5,-1; bne x5,x0,-16;
/// ecall: each core adds 4, 3, 2 and 1 to word 16, and each time writes what it found to word 80, whose block goes where
/// that of word 16 does.
static SUMS: [u32; 8] = [
    0x00400293, 0x04000e13, 0x005e232f, 0x14602023, 0x14002383, 0xfff28293, 0xfe0298e3, 0x00000073,
];

/// The run of the sums on so many cores, with the choices of this seed, on the flat machine.
fn flat_ran(alloc: Global, cores: u8, seed: u64) -> Result<Ran, Fail>
    requires some { 1 ≤ cores }
    requires few { cores ≤ 4 }
{
    let image = image_of(alloc, &SUMS, 128)?;
    Ok(run_flat(
        alloc,
        image,
        params_of(cores, 128),
        Schedule::new(Vec::new(alloc), seed),
    )?)
}

/// The same run on the machine whose copies have words.
fn ran(alloc: Global, cores: u8, seed: u64) -> Result<Ran, Fail>
    requires some { 1 ≤ cores }
    requires few { cores ≤ 4 }
{
    let image = image_of(alloc, &SUMS, 128)?;
    Ok(run_image(
        alloc,
        image,
        params_of(cores, 128),
        Schedule::new(Vec::new(alloc), seed),
    )?)
}

/// The two runs came to the same.
fn are_same(rt: &impl Abort, one: &Ran, other: &Ran) {
    assert!(rt; one.outcome.cores.as_slice() == other.outcome.cores.as_slice());
    assert!(rt; one.outcome.words.as_slice() == other.outcome.words.as_slice());
    let (loads, others) = (one.outcome.loads.as_slice(), other.outcome.loads.as_slice());
    assert_eq!(rt; loads.len(), others.len());
    for (list, found) in loads.iter().zip(others.iter()) {
        assert!(rt; list.as_slice() == found.as_slice());
    }
}

#[test]
fn both_machines_come_to_the_same(rt: HostRuntime) -> Result<(), Fail> {
    for seed in 0..20 {
        let flat = flat_ran(rt.alloc(), 4, seed)?;
        leaves(&rt, &flat.outcome, 16, 40);
        let ran = ran(rt.alloc(), 4, seed)?;
        are_same(&rt, &flat, &ran);
    }
    Ok(())
}
