//! A message without data.
ghost use Rattle.std.specs.Prelude.{◌≡◌, ◌<◌, Some, false, length, slice_set};
ghost use Rattle.msi_state.specs.Events.{Nothing};
ghost use Rattle.msi_state.specs.declared.moves.Move.{Move};
ghost use Rattle.flat_state.specs.declared.message_ring.Told.{Told};
ghost use Rattle.flat_state.specs.Shows.{IsSomewhere, Makes, Tells, node_at};
ghost use Rattle.flat_messages.specs.Heard.{answered, heard, is_data, node_hearing, told_next, with_reply};

use flat_state::{Flat, Replied, Reply, ReplyRing, Told};
use msi_cache::State;
use rtr_types::LINES;

/// The core takes its oldest message, which brings no data: its line changes, and it answers where it has to.
pub fn take_word(flat: &mut Flat, core: u8, told: Told)
    requires stands { IsSomewhere flat.old }
    requires core { core < length flat.old.nodes.items }
    requires told { told_next (node_at flat.old.nodes.items core).messages ≡ Some told }
    requires word { is_data told ≡ false }
    ensures makes { Makes flat.old flat.new (Move.FromHome core) }
    ensures told { Tells flat.old (Move.FromHome core) Nothing }
    ensures nodes { flat.new.nodes.items ≡ slice_set flat.old.nodes.items core (node_hearing flat.old core) }
    ensures home { flat.new.home.items ≡ flat.old.home.items }
{
    let node = &mut flat.nodes[core as usize];
    let message = node.messages.take();
    let block = flat.home[message.place as usize].block;
    let index = block as usize % LINES;
    let state = heard(message.told, node.lines[index].state);
    node.lines[index].state = state;
    answer(&mut node.replies, message.told, message.place);
}

/// The line's state after the message.
pub(crate) fn heard(told: Told, state: State) -> State
    ensures { result ≡ heard told state }
{
    match told {
        Told::Data => filled(state),
        Told::Ack => State::I,
        Told::Inv => match state {
            State::SmD => State::ImD,
            State::SiA => State::IiA,
            _ => State::I,
        },
        Told::FwdS => match state {
            State::M => State::S,
            _ => State::SiA,
        },
        Told::FwdM => match state {
            State::M => State::I,
            _ => State::IiA,
        },
    }
}

/// The state of a line that waited for data, once they came.
fn filled(state: State) -> State
    ensures { result ≡ heard Told.Data state }
{
    match state {
        State::IsD => State::S,
        _ => State::M,
    }
}

/// The core answers what it was told about the block at this place, if it has to.
fn answer(replies: &mut ReplyRing, told: Told, place: u32)
    requires { length replies.old < 16 }
    ensures { replies.new ≡ with_reply (answered told) place replies.old }
{
    match told {
        Told::Data | Told::Ack => {}
        Told::Inv => replies.push(Reply {
            place,
            replied: Replied::InvAck,
        }),
        Told::FwdS | Told::FwdM => replies.push(Reply {
            place,
            replied: Replied::OwnerData,
        }),
    }
}
