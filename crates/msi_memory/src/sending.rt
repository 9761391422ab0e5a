//! Messages go on links.
ghost use Rattle.std.specs.Prelude.{◌≡◌, ◌<◌, ◌≤◌, IfSome, length};
ghost use Rattle.msi_cache.specs.Messages.{message_seen, message_with};
ghost use Rattle.msi_directory.specs.Entries.{answer_riding};
ghost use Rattle.rtr_types.specs.declared.TheConstants.{CORES_MAX};
ghost use Rattle.msi_memory.specs.Acts.{delivered, ports_told, pushed};
ghost use Rattle.msi_memory.specs.Rests.{HasRoomIn, HasRoomTo};

use crate::port::{Mail, Port};
use crate::turn::Turn;
use access_times::{Carry, Rider};
use link_order::Link;
use msi_cache::{FromHome, FromHomeSlot, Held};
use rtr_types::{CORES_MAX, CoreSet};

/// A message from home goes on a link that has room, with its sender's carry.
fn send<R: Rider, K: Carry>(
    link: &mut Link<Mail<FromHomeSlot<R>, K>>,
    message: FromHome<&R>,
    carry: &K,
)
    requires { length link.old.items < link.old.room }
    ensures { link.new ≡ pushed link.old (message_seen message.entry) carry.now }
{
    let mail = link.push_place();
    mail.item.put(message);
    mail.carry = *carry;
}

/// An answer of the home's goes on a link that has room, with the rider in hand where it has data, and with the
/// home's carry. What is in hand afterwards means nothing.
fn send_handed<R: Rider, K: Carry>(
    link: &mut Link<Mail<FromHomeSlot<R>, K>>,
    message: FromHome<()>,
    hand: &mut Held<R>,
    carry: &K,
)
    requires { length link.old.items < link.old.room }
    ensures { link.new ≡ pushed link.old (message_with (λ own. hand.old) message) carry.now }
{
    let mail = link.push_place();
    mail.item.put_handed(message, hand);
    mail.carry = *carry;
}

/// Each core of the set gets the message.
fn tell<R: Rider, K: Carry>(
    ports: &mut [Port<R, K>],
    set: CoreSet,
    message: FromHome<&R>,
    carry: &K,
)
    requires cores { length ports.old ≤ CORES_MAX }
    requires room { HasRoomIn set ports.old }
    ensures { ports.new
        ≡ ports_told K.carrying set (message_seen message.entry) carry.now (length ports.old) ports.old }
{
    for n in 0..ports.len() {
        if set.has(n as u8) {
            send(&mut ports[n].messages, message, carry);
        }
    }
}

/// The home's answer goes on its way, with the rider in hand where it has one: one message to its core, or else
/// to each core of the set that its copy of the block is no longer valid. What is in hand afterwards means nothing.
#[inline(always)]
pub(crate) fn deliver<R: Rider, K: Carry>(
    ports: &mut [Port<R, K>],
    turn: Turn,
    hand: &mut Held<R>,
    carry: &K,
)
    requires cores { length ports.old ≤ CORES_MAX }
    requires room { HasRoomTo K.carrying (answer_riding hand.old turn.answer) ports.old }
    requires to { IfSome (answer_riding hand.old turn.answer).send (λ s. s.0 < length ports.old) }
    ensures { ports.new ≡ delivered K.carrying (answer_riding hand.old turn.answer) turn.block carry.now ports.old }
{
    let Turn { answer, block, .. } = turn;
    match answer.send {
        Some((to, message)) => {
            let link = &mut ports[to as usize].messages;
            send_handed(link, message, hand, carry);
        }
        None => {
            let inv = FromHome::<()>::Inv { block };
            tell(ports, answer.invalidate, inv.riding(hand.get()), carry);
        }
    }
}
