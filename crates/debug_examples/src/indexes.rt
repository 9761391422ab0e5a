//! What an index shows at a closed cut.
ghost use Rattle.std.specs.Prelude.{◌≡◌, IfOk, IfSome};
ghost use Rattle.replay_core.specs.Plans.{plan_of};
ghost use Rattle.cut_replay.specs.ClosedCuts.{IsClosed};

use crate::recordings::three;
use cut_index::{Index, Standing};
use cut_replay::{cut_with, has_instr};
use replay_audit::Audited;
use row_texts::Counts;
use rtr_types::{Cut, Instr, Kind, Which};
use std::alloc::AllocError;
use std::test::Fail;

/// The least cut with the second instruction of core 1.
fn second(audited: &Audited) -> Result<Option<Cut>, AllocError>
    ensures { IfOk result (λ cut. IfSome cut (IsClosed audited.now.which audited.now.recording)) }
{
    let at = Instr { core: 1, count: 2 };
    if !has_instr(audited.recording(), at) {
        return Ok(None);
    }
    Ok(Some(cut_with(audited, at)?))
}

/// The address and the access of the core's next instruction; none where there is no such core.
fn comes(standing: &Standing, core: u8) -> Option<(u32, Option<(Kind, u32)>)> {
    if core >= standing.cores() {
        return None;
    }
    Some((standing.pc(core), standing.next_use(core)))
}

/// What core 1 has loaded into register 7, and what word 16 is.
fn values(audited: &Audited, standing: &Standing) -> Option<(u32, u32)>
    requires { standing.now.plan ≡ plan_of audited.now.which audited.now.recording }
{
    if standing.cores() < 2 || audited.recording().params.words <= 16 {
        return None;
    }
    Some((standing.core(1).reg(7), standing.word(16)))
}

// Behind a load of core 1: core 0 is about to load, core 1 to store, and core 2 has yet to begin.
#[test]
fn shows(rt: HostRuntime) -> Result<(), Fail> {
    let audited = three(rt.alloc(), Which::Reduced)?;
    let index = Index::of(rt.alloc(), &audited)?;
    let Some(cut) = second(&audited)? else {
        assert!(rt; false);
        return Ok(());
    };
    let standing = Standing::at(&index, &cut);
    assert!(rt; Counts::of(&standing.cut()) == Counts::new(3, 2, 0));
    assert!(rt; comes(&standing, 0) == Some((0xc, Some((Kind::Load, 16)))));
    assert!(rt; comes(&standing, 1) == Some((0x18, Some((Kind::Store, 16)))));
    assert!(rt; comes(&standing, 2) == Some((0, None)));
    assert!(rt; values(&audited, &standing) == Some((7, 7)));
    Ok(())
}
