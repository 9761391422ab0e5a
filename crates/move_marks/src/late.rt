//! The late core: that for whose oldest request there may be no room yet, and about which the home wasn't asked. It is
//! the core that put a request down last, if no room was made since, and else none.
ghost use Rattle.std.specs.Prelude.{◌≡◌, ℕ, OnOk, false, true};
ghost use Rattle.rtr_types.specs.CoreSets.{has};
ghost use Rattle.rtr_types.specs.declared.TheConstants.{CORES_MAX};
ghost use Rattle.msi_laws.specs.Holds.{MemoryHolds};
ghost use Rattle.msi_memory.specs.Rests.{RoomsMade, are_heads_roomy};
ghost use Rattle.move_marks.specs.Kinds.{set_of};
ghost use Rattle.move_marks.specs.Ports.{PortsMarked, PortsNoted};
ghost use Rattle.move_marks.specs.declared.marks.MoveKind.TheVariants.{Own, Request};

use crate::marks::{MoveKind, MoveMarks};
use access_times::{Carry, Rider};
use msi_memory::MemorySystem;
use rtr_types::CORES_MAX;
use std::alloc::AllocError;

/// The marks with the late core's oldest request marked where the home can take it.
#[inline(always)]
pub fn with_late<R: Rider, K: Carry>(
    memory: &MemorySystem<R, K>,
    cores: u32,
    marks: MoveMarks,
    late: u8,
) -> MoveMarks
    requires holds { MemoryHolds R.riding K.carrying memory.now.memory }
    requires noted { PortsNoted R.riding K.carrying memory.now.memory memory.now.rooms cores marks late }
    ensures marked { PortsMarked R.riding K.carrying memory.now.memory result }
    ensures own { (c : ℕ) → has (set_of Own result) c ≡ has (set_of Own marks) c }
{
    let mut all = marks;
    if (late as u32) < cores {
        all.set(MoveKind::Request, late, memory.has_free_head(late));
    }
    all
}

/// Makes room in the home for the block of the late core's oldest request, which is marked then where the home can take
/// it, so that no core is late any more. After want of memory no mark has changed.
pub fn make_room<R: Rider, K: Carry>(
    memory: &mut MemorySystem<R, K>,
    cores: u32,
    marks: &mut MoveMarks,
    late: &mut u8,
) -> Result<(), AllocError>
    requires holds { MemoryHolds R.riding K.carrying memory.old.memory }
    requires noted { PortsNoted R.riding K.carrying memory.old.memory memory.old.rooms cores marks.old late.old }
    ensures memory { memory.new.memory ≡ memory.old.memory }
    ensures rooms { RoomsMade memory.old.memory.ports memory.old.rooms memory.new.rooms }
    ensures ok { OnOk result (are_heads_roomy memory.new.memory.ports memory.new.rooms ≡ true) }
    ensures noted { PortsNoted R.riding K.carrying memory.new.memory memory.new.rooms cores marks.new late.new }
    ensures own { (c : ℕ) → has (set_of Own marks.new) c ≡ has (set_of Own marks.old) c }
    ensures unmarked { has (set_of Request marks.old) late.old ≡ false
        → has (set_of Request marks.new) late.new ≡ false }
{
    if (*late as u32) < cores {
        let can = memory.make_room(*late)?;
        marks.set(MoveKind::Request, *late, can);
        *late = CORES_MAX;
    }
    Ok(())
}
