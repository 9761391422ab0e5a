//! What the home tells cores of a turn.
ghost use Rattle.std.specs.Prelude.{◌≡◌, ◌<◌, ◌≤◌, ◌==◌, ◌&&◌, ℕ, Some, length, true};
ghost use Rattle.rtr_types.specs.CoreSets.{has};
ghost use Rattle.rtr_types.specs.declared.TheConstants.{CORES_MAX};
ghost use Rattle.flat_state.specs.Shows.{node_at};
ghost use Rattle.flat_home.specs.Tellings.{addressee, tells, told_of, with_message};
ghost use Rattle.flat_state.specs.declared.message_ring.Told.TheVariants.{Inv};

use flat_state::{Message, Node, Told};
use rtr_types::CoreSet;

/// What the home tells of a turn: one core is told of data, of the end of its Put, or that another core is to share or
/// to own its block; each core of a set is to give up its copy; or nobody is told anything.
#[derive(Clone, Copy)]
pub enum Telling {
    Data { to: u8 },
    Ack { to: u8 },
    FwdS { to: u8 },
    FwdM { to: u8 },
    Each { set: CoreSet },
    Nobody,
}

/// What came of a turn: the place of its block's entry, and what the home tells of it.
#[derive(Clone, Copy)]
pub struct HomeTurn {
    pub place: u32,
    pub telling: Telling,
}

/// Puts what is told on its way, about the block at this place.
pub fn tell(nodes: &mut Vec<Node>, place: u32, telling: Telling)
    requires few { length nodes.old.items ≤ CORES_MAX }
    requires there { (to : ℕ) → addressee telling ≡ Some to → to < length nodes.old.items }
    requires room { (d : ℕ) → d < length nodes.old.items → tells telling d ≡ true
        → length (node_at nodes.old.items d).messages < 16 }
    ensures long { length nodes.new.items ≡ length nodes.old.items }
    ensures nodes { (d : ℕ) → d < length nodes.old.items → node_at nodes.new.items d
        ≡ with_message (tells telling d) place (told_of telling) (node_at nodes.old.items d) }
{
    match telling {
        Telling::Data { to } => tell_one(nodes, place, Told::Data, to),
        Telling::Ack { to } => tell_one(nodes, place, Told::Ack, to),
        Telling::FwdS { to } => tell_one(nodes, place, Told::FwdS, to),
        Telling::FwdM { to } => tell_one(nodes, place, Told::FwdM, to),
        Telling::Each { set } => tell_each(nodes, place, set),
        Telling::Nobody => {}
    }
}

/// One core is told this of the block at this place.
fn tell_one(nodes: &mut Vec<Node>, place: u32, told: Told, to: u8)
    requires there { to < length nodes.old.items }
    requires room { length (node_at nodes.old.items to).messages < 16 }
    ensures long { length nodes.new.items ≡ length nodes.old.items }
    ensures nodes { (d : ℕ) → d < length nodes.old.items → node_at nodes.new.items d
        ≡ with_message (d == to) place told (node_at nodes.old.items d) }
{
    nodes[to as usize].messages.push(Message { place, told });
}

/// Each core of the set is to give up its copy of the block at this place.
fn tell_each(nodes: &mut Vec<Node>, place: u32, set: CoreSet)
    requires few { length nodes.old.items ≤ CORES_MAX }
    requires room { (d : ℕ) → d < length nodes.old.items → has set d ≡ true
        → length (node_at nodes.old.items d).messages < 16 }
    ensures long { length nodes.new.items ≡ length nodes.old.items }
    ensures nodes { (d : ℕ) → d < length nodes.old.items → node_at nodes.new.items d
        ≡ with_message (has set d) place Inv (node_at nodes.old.items d) }
{
    for core in 0..nodes.len() {
        let hears = set.has(core as u8);
        tell_if(hears, nodes, place, core as u8);
    }
}

/// One core, if it hears of it, is to give up its copy of the block at this place.
fn tell_if(hears: bool, nodes: &mut Vec<Node>, place: u32, to: u8)
    requires there { to < length nodes.old.items }
    requires room { hears ≡ true → length (node_at nodes.old.items to).messages < 16 }
    ensures long { length nodes.new.items ≡ length nodes.old.items }
    ensures nodes { (d : ℕ) → d < length nodes.old.items → node_at nodes.new.items d
        ≡ with_message (hears && (d == to)) place Inv (node_at nodes.old.items d) }
{
    if hears {
        tell_one(nodes, place, Told::Inv, to);
    }
}
