//! Ways on which a test stops a place.
ghost use Rattle.std.specs.Prelude.{IfOk, IfSome, false, nat_eq};
ghost use Rattle.std.proofs.Common.{sym};
ghost use Rattle.std.proofs.Math.Bool.{or-false};
ghost use Rattle.cut_replay.specs.ClosedCuts.{IsClosed};
ghost use Rattle.replay_core.specs.Play.{core_at};

use crate::handed_over::{counts, handed_over};
use cut_replay::{cut_with, has_instr};
use debug_place::{Place, Stops};
use replay_audit::Audited;
use rtr_types::{Cut, Instr, Kind};
use std::alloc::{AllocError, Global};
use std::test::Fail;

/// Stops before the instruction at this address.
#[derive(Drop)]
struct Breakpoint(u32);

impl Stops for Breakpoint {
    ghost stops = { λ point plan state core. nat_eq (core_at state core).pc point.0 };

    ghost hits = { λ point. record {
      by_pc = λ core pc. nat_eq pc point.0;
      by_use = λ core used. false;
      last = λ core. false;
    } };

    ghost own = { λ point plan state core. sym (or-false (nat_eq (core_at state core).pc point.0)) };

    fn hits_pc(&self, _core: u8, pc: u32) -> bool {
        pc == self.0
    }

    fn hits_use(&self, _core: u8, _used: Option<(Kind, u32)>) -> bool {
        false
    }

    fn stops_last(&self, _core: u8) -> bool {
        false
    }

    fn passes_pcs(&self, _core: u8) -> bool {
        false
    }

    fn passes_uses(&self, _core: u8) -> bool {
        true
    }
}

/// The least cut with the last instruction of core 0.
fn end(audited: &Audited) -> Result<Option<Cut>, AllocError>
    ensures { IfOk result (λ cut. IfSome cut (IsClosed audited.now.which audited.now.recording)) }
{
    let last = Instr { core: 0, count: 5 };
    if !has_instr(audited.recording(), last) {
        return Ok(None);
    }
    Ok(Some(cut_with(audited, last)?))
}

/// On to a cut, or back from there to the beginning.
#[derive(Clone, Copy)]
enum Way {
    On,
    Back,
}

/// A way between the beginning and the last instruction of core 0, with a breakpoint: before which core's instruction
/// it stops, and how many instructions of core 0 and of core 1 are executed there.
struct Row {
    way: Way,
    point: u32,
    core: Option<u8>,
    counts: (u32, u32),
}

/// Where the way of the row stops, and the counts there.
fn stopped(
    alloc: Global,
    audited: &Audited,
    row: &Row,
) -> Result<(Option<u8>, (u32, u32)), AllocError> {
    let mut place = Place::begin(alloc, audited)?;
    let nothing = place.cut();
    let point = Breakpoint(row.point);
    let mut core = None;
    if let Some(to) = end(audited)? {
        core = match row.way {
            Way::On => place.go_to(alloc, &point, &to)?,
            Way::Back => {
                place.seek(alloc, &to)?;
                place.back(alloc, &point, &nothing)?
            }
        };
    }
    Ok((core, counts(&place)))
}

macro_rules! row {
    ($way:ident at $point:literal => $core:expr, $counts:expr) => {
        Row { way: Way::$way, point: $point, core: $core, counts: $counts }
    };
}

static ROWS: [Row; 8] = [
    // The cores take turns, in rounds, where the log lets them. Core 1 jumps to 0x14 at its first instruction, and
    // loads there.
    row!(On at 8 => Some(0), (2, 1)),
    row!(On at 0x14 => Some(1), (3, 1)),
    row!(On at 0x18 => Some(1), (3, 2)),
    // No core comes to 0x40, so the way is gone to its end.
    row!(On at 0x40 => None, (5, 3)),
    // The last stop of the way is the first that going back comes to; both cores begin at 0, core 1 as the second.
    row!(Back at 0x14 => Some(1), (3, 1)),
    row!(Back at 8 => Some(0), (2, 1)),
    row!(Back at 0 => Some(1), (1, 0)),
    row!(Back at 0x40 => None, (0, 0)),
];

#[test]
fn a_way_stops_before_the_instruction_of_a_breakpoint(rt: HostRuntime) -> Result<(), Fail> {
    let audited = handed_over(rt.alloc())?;
    for row in &ROWS {
        let wanted = (row.core, row.counts);
        assert_eq!(rt; stopped(rt.alloc(), &audited, row)?, wanted);
    }
    Ok(())
}
