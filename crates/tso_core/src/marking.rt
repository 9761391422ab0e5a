//! What a core's moves change of the marks.
ghost use Rattle.std.specs.Prelude.{◌≡◌, ◌<◌, ◌/◌, ◌||◌, length, not};
ghost use Rattle.msi_cache.specs.Lines.{waits};
ghost use Rattle.msi_memory.specs.Acts.{allows};
ghost use Rattle.tso_core.specs.Standings.{IsAtPort, OwnMarked, may_execute};
ghost use Rattle.tso_invariant.specs.Holds.{is_asking};
ghost use Rattle.tso_state.specs.Steps.{can_order};
ghost use Rattle.msi_memory.specs.Memories.{port_at};
ghost use Rattle.rtr_types.specs.declared.TheConstants.{BLOCK_WORDS};

use crate::marks::Marks;
use crate::standing::Standing;
use crate::station::{Station, is_asking, is_next};
use access_times::{Carry, Rider};
use move_marks::{MoveKind, set_to};
use msi_memory::MemorySystem;
use rtr_types::{BLOCK_WORDS, Kind};
use rv_core::Need;
use tso_state::Pending;

/// Marks the core's own move and the ordering of its oldest pending access where they can be made.
pub(crate) fn mark_own<R: Rider, K: Carry>(
    memory: &MemorySystem<R, K>,
    core: u8,
    station: &Station,
    standing: Standing,
    marks: &mut Marks,
)
    requires { IsAtPort K.carrying memory.now.memory station.now core }
    ensures { OwnMarked R.riding (port_at K.carrying memory.now.memory.ports core) station.now standing core marks.old
        marks.new }
{
    let executes = can_execute(memory, core, station, standing);
    marks.moves.set(MoveKind::Own, core, executes);
    let orders = can_order(memory, core, station);
    marks.orders = set_to(marks.orders, core, orders);
}

/// Whether the core can execute its next instruction, or ask for the block that this needs.
fn can_execute<R: Rider, K: Carry>(
    memory: &MemorySystem<R, K>,
    core: u8,
    station: &Station,
    standing: Standing,
) -> bool
    requires here { core < length memory.now.memory.ports }
    requires asked { waits (port_at K.carrying memory.now.memory.ports core).cache ≡ is_asking station.now.asker }
    ensures { result ≡ may_execute R.riding standing station.now (port_at K.carrying memory.now.memory.ports core) }
{
    if is_next(station.asker) {
        return false;
    }
    match standing.need {
        Need::Local => !standing.is_fence() || station.queue.is_empty(),
        Need::Store { .. } => station.queue.has_store_room(),
        Need::Load { word } => {
            station.queue.has_room() && can_use(memory, core, station, word, Kind::Load)
        }
        Need::Amo { .. } => station.queue.is_empty() && !is_asking(station.asker),
        Need::Done(_) => false,
    }
}

/// Whether the core's oldest pending access can be ordered, or ask for the block that it needs.
fn can_order<R: Rider, K: Carry>(memory: &MemorySystem<R, K>, core: u8, station: &Station) -> bool
    requires here { core < length memory.now.memory.ports }
    requires asked { waits (port_at K.carrying memory.now.memory.ports core).cache ≡ is_asking station.now.asker }
    ensures { result ≡ can_order station.now.queue R.riding (port_at K.carrying memory.now.memory.ports core) }
{
    match station.queue.oldest() {
        None => false,
        Some(Pending::Load { .. }) => true,
        Some(Pending::Store { word, .. }) => can_use(memory, core, station, word, Kind::Store),
    }
}

/// Whether the core's port allows an access of this kind to a word, or doesn't wait, so that it can be asked.
fn can_use<R: Rider, K: Carry>(
    memory: &MemorySystem<R, K>,
    core: u8,
    station: &Station,
    word: u32,
    kind: Kind,
) -> bool
    requires here { core < length memory.now.memory.ports }
    requires asked { waits (port_at K.carrying memory.now.memory.ports core).cache ≡ is_asking station.now.asker }
    ensures { let port = port_at K.carrying memory.now.memory.ports core in
        result ≡ (allows R.riding port (word / BLOCK_WORDS) kind || not (waits port.cache)) }
{
    if is_asking(station.asker) {
        allows(memory, core, word, kind)
    } else {
        true
    }
}

/// Whether the core's port allows an access of this kind to a word, by its index.
pub(crate) fn allows<R: Rider, K: Carry>(
    memory: &MemorySystem<R, K>,
    core: u8,
    word: u32,
    kind: Kind,
) -> bool
    requires { core < length memory.now.memory.ports }
    ensures { result ≡ allows R.riding (port_at K.carrying memory.now.memory.ports core) (word / BLOCK_WORDS) kind }
{
    memory.allows(core, word / BLOCK_WORDS as u32, kind)
}
