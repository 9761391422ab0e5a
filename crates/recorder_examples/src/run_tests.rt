//! Runs that were worked out by hand.
ghost use Rattle.std.specs.Prelude.{◌≤◌};

use crate::keeper::image_of;
use crate::settings::{HANDED_OVER, IN_TURN, leaves, load, params_of, schedule_of};
use msi_run::{Ran, run_image};
use rv_core::LoadNote;
use std::alloc::Global;
use std::process::Abort;
use std::test::Fail;

/// The run of the code on so many cores over 32 words. The generator's choices come after these.
fn ran(alloc: Global, code: &[u32], cores: u8, choices: &[u8]) -> Result<Ran, Fail>
    requires some { 1 ≤ cores }
    requires few { cores ≤ 2 }
{
    let image = image_of(alloc, code, 32)?;
    let schedule = schedule_of(alloc, choices)?;
    Ok(run_image(alloc, image, params_of(cores, 32), schedule)?)
}

/// Each of the two cores retired so many instructions.
fn counts_are(rt: &impl Abort, ran: &Ran, first: u32, second: u32) {
    let cores = ran.outcome.cores.as_slice();
    assert!(rt; cores.len() == 2);
    assert!(rt; (cores[0].count(), cores[1].count()) == (first, second));
}

/// The core did this one load.
fn did(rt: &impl Abort, ran: &Ran, core: usize, load: LoadNote) {
    match ran.outcome.loads.as_slice().get(core) {
        Some(loads) => assert!(rt; loads.as_slice() == [load].as_slice()),
        None => assert!(rt; false, "no core {core}"),
    }
}

// Core 0 stores 7 to word 16 and loads it; core 1 loads the word and stores its number, 1, there. The choices let
// core 1's load come after the store, and its store before core 0's load.
#[test]
fn both_cores_conflict(rt: HostRuntime) -> Result<(), Fail> {
    let ran = ran(rt.alloc(), &HANDED_OVER, 2, &IN_TURN)?;
    leaves(&rt, &ran.outcome, 16, 1);
    leaves(&rt, &ran.outcome, 2, 0x0450_2023);
    counts_are(&rt, &ran, 5, 4);
    assert!(rt; (ran.image.words(), ran.image.bytes().len()) == (32, 32));
    assert!(rt; ran.outcome.loads.as_slice().len() == 2);
    did(&rt, &ran, 0, load(4, 16, 1));
    did(&rt, &ran, 1, load(2, 16, 7));
    Ok(())
}

// AMOADD.W x6, x5, (x0) with x5 = 3 adds to the word at address 0, which is ADDI x5, x0, 3, and gets the old one.
#[test]
fn an_atomic_operation_is_among_the_loads(rt: HostRuntime) -> Result<(), Fail> {
    let code = [0x0030_0293u32, 0x0050_232f, 0x0000_0073];
    let ran = ran(rt.alloc(), &code, 1, &[])?;
    did(&rt, &ran, 0, load(2, 0, 0x0030_0293));
    leaves(&rt, &ran.outcome, 0, 0x0030_0296);
    Ok(())
}
