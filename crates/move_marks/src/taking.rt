//! The home's turns, with which the marks at the ports go.
ghost use Rattle.std.specs.Prelude.{◌≡◌, IsTrue, length};
ghost use Rattle.msi_laws.specs.Holds.{MemoryHolds};
ghost use Rattle.msi_memory.specs.Acts.{TakeRequest, TakeResponse, can};
ghost use Rattle.msi_memory.specs.Rests.{are_heads_roomy};
ghost use Rattle.move_marks.specs.Ports.{MarksFollowed, PortsMarked};

use crate::marking::mark_turn;
use crate::marks::{MoveKind, MoveMarks};
use access_times::{Carry, Rider};
use msi_memory::MemorySystem;

/// The home takes the core's oldest request, and the marks at so many ports become those of what can be done there
/// then.
pub fn take_request<R: Rider, K: Carry>(
    memory: &mut MemorySystem<R, K>,
    core: u8,
    cores: u32,
    marks: &mut MoveMarks,
)
    requires roomy { IsTrue (are_heads_roomy memory.old.memory.ports memory.old.rooms) }
    requires holds { MemoryHolds R.riding K.carrying memory.old.memory }
    requires can { IsTrue (can R.riding K.carrying memory.old.memory (TakeRequest core)) }
    requires cores { cores ≡ length memory.old.memory.ports }
    requires marked { PortsMarked R.riding K.carrying memory.old.memory marks.old }
    ensures { MarksFollowed R.riding K.carrying memory.old memory.new (TakeRequest core) marks.old marks.new }
{
    // its link has room for one request, so none is left
    marks.set(MoveKind::Request, core, false);
    // a request is taken only where its block is free, and a response only where it isn't
    let turn = memory.take_request(core);
    mark_turn(memory, cores, turn, true, marks);
}

/// The home takes the core's oldest response, and the marks at so many ports become those of what can be done there
/// then.
pub fn take_response<R: Rider, K: Carry>(
    memory: &mut MemorySystem<R, K>,
    core: u8,
    cores: u32,
    marks: &mut MoveMarks,
)
    requires holds { MemoryHolds R.riding K.carrying memory.old.memory }
    requires can { IsTrue (can R.riding K.carrying memory.old.memory (TakeResponse core)) }
    requires cores { cores ≡ length memory.old.memory.ports }
    requires marked { PortsMarked R.riding K.carrying memory.old.memory marks.old }
    ensures { MarksFollowed R.riding K.carrying memory.old memory.new (TakeResponse core) marks.old marks.new }
{
    let turn = memory.take_response(core);
    marks.set(MoveKind::Response, core, memory.has_response(core));
    mark_turn(memory, cores, turn, false, marks);
}
