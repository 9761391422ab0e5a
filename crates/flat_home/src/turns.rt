//! The home's turns.
ghost use Rattle.std.specs.Prelude.{◌≡◌, ◌<◌, false, length, true};
ghost use Rattle.link_order.specs.Queue.{is_nil};
ghost use Rattle.msi_state.specs.Events.{Nothing};
ghost use Rattle.msi_state.specs.declared.moves.Move.{Move};
ghost use Rattle.flat_state.specs.Shows.{IsSomewhere, Makes, Tells, blocks_of, home_at, node_at};
ghost use Rattle.flat_home.specs.Tellings.{HasTurned, block_free, node_answered, node_served, reply_place};

use crate::hearing::hear;
use crate::serving::serve;
use crate::tellings::{HomeTurn, tell};
use flat_state::Flat;

/// The home takes the core's request, whose block isn't busy, and answers what it tells of it.
pub fn take_request(flat: &mut Flat, core: u8) -> HomeTurn
    requires stands { IsSomewhere flat.old }
    requires core { core < length flat.old.nodes.items }
    requires asks { (node_at flat.old.nodes.items core).asks ≡ true }
    requires free { block_free (home_at flat.old.home.items (node_at flat.old.nodes.items core).place) ≡ true }
    ensures makes { Makes flat.old flat.new (Move.Request core) }
    ensures told { Tells flat.old (Move.Request core) Nothing }
    ensures turned { HasTurned flat.old flat.new core (node_served flat.old core) result }
    ensures place { result.place ≡ (node_at flat.old.nodes.items core).place }
    ensures blocks { blocks_of flat.new.home.items ≡ blocks_of flat.old.home.items }
{
    let node = &mut flat.nodes[core as usize];
    node.asks = false;
    let (place, ask) = (node.place, node.ask);
    let block = &mut flat.home[place as usize];
    let telling = serve(block, core, ask);
    tell(&mut flat.nodes, place, telling);
    HomeTurn { place, telling }
}

/// The home takes the oldest of the core's responses, and answers what it tells of it.
pub fn take_response(flat: &mut Flat, core: u8) -> HomeTurn
    requires stands { IsSomewhere flat.old }
    requires core { core < length flat.old.nodes.items }
    requires some { is_nil (node_at flat.old.nodes.items core).replies ≡ false }
    ensures makes { Makes flat.old flat.new (Move.Response core) }
    ensures told { Tells flat.old (Move.Response core) Nothing }
    ensures turned { HasTurned flat.old flat.new core (node_answered flat.old core) result }
    ensures place { result.place ≡ reply_place (node_at flat.old.nodes.items core).replies }
    ensures blocks { blocks_of flat.new.home.items ≡ blocks_of flat.old.home.items }
{
    let node = &mut flat.nodes[core as usize];
    let reply = node.replies.take();
    let block = &mut flat.home[reply.place as usize];
    let telling = hear(block, core, reply.replied);
    tell(&mut flat.nodes, reply.place, telling);
    HomeTurn {
        place: reply.place,
        telling,
    }
}
