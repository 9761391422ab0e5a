//! The home takes what lies on a link.
ghost use Rattle.std.specs.Prelude.{◌≡◌, ◌<◌, IsTrue, drop, length};
ghost use Rattle.rtr_types.specs.declared.TheConstants.{CORES_MAX};
ghost use Rattle.msi_cache.specs.Messages.{request_block, response_block};
ghost use Rattle.msi_directory.specs.Blocks.{entry_at, has_room};
ghost use Rattle.msi_directory.specs.Deeds.{request_deed, response_deed};
ghost use Rattle.msi_directory.specs.Entries.{has_request_row, has_response_row};
ghost use Rattle.msi_memory.specs.Heads.{OfHead};
ghost use Rattle.msi_memory.specs.Turns.{IsDone};

use crate::port::Mail;
use crate::turn::Turn;
use access_times::{Carry, Rider};
use link_order::Link;
use msi_cache::{Held, RequestSlot, ResponseSlot};
use msi_directory::{Home, Served};
use rtr_types::CORES_MAX;

/// The home takes the oldest of these requests, which are some, and joins its sender's carry. The rider of data
/// which it sends is in hand afterwards.
pub(crate) fn serve<R: Rider, K: Carry>(
    home: &mut Home<R>,
    from: u8,
    requests: &mut Link<Mail<RequestSlot<R>, K>>,
    carry: &mut K,
    hand: &mut Held<R>,
) -> Turn
    requires from { from < CORES_MAX }
    requires some { 0 < length requests.old.items }
    requires within { OfHead requests.old.items (λ mail. request_block mail.item < length home.old.entries) }
    requires room { OfHead requests.old.items (λ mail. IsTrue (has_room home.old.rooms (request_block mail.item))) }
    requires row { OfHead requests.old.items (λ mail. IsTrue (has_request_row
        (entry_at R.riding.fresh home.old.entries (request_block mail.item)).stage from mail.item)) }
    ensures room { requests.new.room ≡ requests.old.room }
    ensures items { requests.new.items ≡ drop 1 requests.old.items }
    ensures done { OfHead requests.old.items (λ mail. IsDone R.riding.fresh K.carrying
        (request_deed R.riding from mail.item) mail.carry home.old home.new carry.old carry.new hand.new result) }
{
    let mail = requests.head_place();
    carry.join(&mail.carry);
    let block = mail.item.block();
    let Served { answer, free } = home.serve(from, mail.item.open(), hand);
    requests.drop_head();
    Turn {
        block,
        answer,
        free,
    }
}

/// The home takes the oldest of these responses, which are some, and joins its sender's carry. An owner's rider is
/// handed over. The rider of data which the home sends is in hand afterwards.
pub(crate) fn collect<R: Rider, K: Carry>(
    home: &mut Home<R>,
    from: u8,
    responses: &mut Link<Mail<ResponseSlot<R>, K>>,
    carry: &mut K,
    hand: &mut Held<R>,
) -> Turn
    requires from { from < CORES_MAX }
    requires some { 0 < length responses.old.items }
    requires within { OfHead responses.old.items (λ mail. response_block mail.item < length home.old.entries) }
    requires row { OfHead responses.old.items (λ mail. IsTrue (has_response_row
        (entry_at R.riding.fresh home.old.entries (response_block mail.item)).stage from mail.item)) }
    ensures room { responses.new.room ≡ responses.old.room }
    ensures items { responses.new.items ≡ drop 1 responses.old.items }
    ensures done { OfHead responses.old.items (λ mail. IsDone R.riding.fresh K.carrying
        (response_deed R.riding from mail.item) mail.carry home.old home.new carry.old carry.new hand.new result) }
{
    let mail = responses.head_place();
    carry.join(&mail.carry);
    let block = mail.item.block();
    let Served { answer, free } = home.receive(from, &mut mail.item, hand);
    responses.drop_head();
    Turn {
        block,
        answer,
        free,
    }
}
