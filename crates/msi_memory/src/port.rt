//! A core's side of the memory system.
ghost use Rattle.std.specs.Prelude.{◌≡◌, ◌<◌, IfOk, IsTrue, None, OnOk, Some, false, length};
ghost use Rattle.msi_cache.specs.Lines.{answer, has_row, line_for, lines_after, waits};
ghost use Rattle.msi_cache.specs.Messages.{block_of, message_seen, signal};
ghost use Rattle.msi_memory.specs.Acts.{data_next, port_taking};
ghost use Rattle.msi_memory.specs.Memories.{port_start};
ghost use Rattle.msi_memory.specs.Waiting.{ends_wait};
ghost use Rattle.msi_memory.specs.Rests.{can_hear_in};

use access_times::{Carry, Rider};
use link_order::{Blank, Link};
use msi_cache::{Cache, FromHome, FromHomeSlot, RequestSlot, ResponseSlot};
use rtr_types::CORES_MAX;
use std::alloc::{AllocError, Global};

/// What is on a link: a message, and its sender's carry as it was once the sender had done all else.
#[derive(Drop)]
pub struct Mail<T, K> {
    pub item: T,
    pub carry: K,
}

// Places on links to which no message came yet.
impl<R: Rider, K: Carry> Blank for Mail<RequestSlot<R>, K> {
    fn blank(alloc: Global) -> Result<Self, AllocError> {
        let item = RequestSlot::blank(alloc)?;
        let carry = K::none();
        Ok(Mail { item, carry })
    }
}

impl<R: Rider, K: Carry> Blank for Mail<ResponseSlot<R>, K> {
    fn blank(alloc: Global) -> Result<Self, AllocError> {
        let item = ResponseSlot::blank(alloc)?;
        let carry = K::none();
        Ok(Mail { item, carry })
    }
}

impl<R: Rider, K: Carry> Blank for Mail<FromHomeSlot<R>, K> {
    fn blank(alloc: Global) -> Result<Self, AllocError> {
        let item = FromHomeSlot::blank(alloc)?;
        let carry = K::none();
        Ok(Mail { item, carry })
    }
}

/// A core's side of the memory system: its carry, its cache, and its three links: requests to home,
/// responses to home and messages from home.
pub struct Port<R, K> {
    pub carry: K,
    pub cache: Cache<R>,
    pub requests: Link<Mail<RequestSlot<R>, K>>,
    pub responses: Link<Mail<ResponseSlot<R>, K>>,
    pub messages: Link<Mail<FromHomeSlot<R>, K>>,
}

impl<R: Drop, K: Drop> Drop for Port<R, K> {
    fn drop(self) {
        let Port {
            carry: _carry,
            cache: _cache,
            requests: _requests,
            responses: _responses,
            messages: _messages,
        } = self;
    }
}

impl<R: Rider, K: Carry> Port<R, K> {
    /// A port at the start.
    pub(crate) fn new(alloc: Global) -> Result<Port<R, K>, AllocError>
        ensures { IfOk result (λ p. p ≡ port_start R.riding K.carrying) }
    {
        let cache = Cache::new(alloc)?;
        let requests = Link::of_blanks(alloc, 1)?;
        let responses = Link::of_blanks(alloc, CORES_MAX as u32)?;
        let messages = Link::of_blanks(alloc, CORES_MAX as u32)?;
        Ok(Port {
            carry: K::none(),
            cache,
            requests,
            responses,
            messages,
        })
    }

    /// Becomes a port at the start, with the memory that it has.
    pub(crate) fn restart(&mut self, alloc: Global) -> Result<(), AllocError>
        ensures { OnOk result (self.new ≡ port_start R.riding K.carrying) }
    {
        self.carry = K::none();
        self.cache.clear();
        self.requests.restart(alloc, 1)?;
        self.responses.restart(alloc, CORES_MAX as u32)?;
        self.messages.restart(alloc, CORES_MAX as u32)
    }

    /// Takes the oldest message from home, and answers it where the cache's table has an answer. Whether some
    /// line waits is kept beside the port and renewed. The answer is whether the message had a block's data.
    pub(crate) fn take(&mut self, waiting: &mut bool) -> bool
        requires row { IsTrue (can_hear_in self.old.messages.items R.riding self.old) }
        requires room { length self.old.responses.items < self.old.responses.room }
        requires waits { waiting.old ≡ waits self.old.cache }
        ensures port { self.new ≡ port_taking R.riding K.carrying self.old self.old.messages.items }
        ensures data { result ≡ data_next self.old.messages.items }
        ensures waits { waiting.new ≡ waits self.new.cache }
    {
        if self.messages.is_empty() {
            return false;
        }
        let mail = self.messages.head_place();
        self.carry.join(&mail.carry);
        let message = mail.item.open();
        let is_data = matches!(message, FromHome::BlockData { .. });
        if ends_wait(message) {
            hear(&mut self.cache, &mut mail.item, waiting);
        } else {
            let reply = self.responses.push_place();
            respond(&mut self.cache, message, &mut reply.item);
            reply.carry = self.carry;
        }
        self.messages.drop_head();
        is_data
    }
}

// Whether such a message ends the wait of a line that expects it.
fn ends_wait<R>(message: FromHome<&R>) -> bool
    ensures { result ≡ ends_wait (signal message.entry) }
{
    matches!(
        message,
        FromHome::BlockData { .. } | FromHome::PutAck { .. }
    )
}

/// The cache takes the message from home that lies here, which ends a wait and isn't answered. What was kept of its
/// waiting is renewed.
#[tactic(auto, using(crate::proofs::WaitingLines::unanswered))]
fn hear<R: Rider>(cache: &mut Cache<R>, message: &mut FromHomeSlot<R>, waiting: &mut bool)
    requires row { IsTrue (has_row (line_for R.riding.fresh cache.old (block_of message.old)) message.old) }
    requires ends { IsTrue (ends_wait (signal message.old)) }
    ensures lines { cache.new ≡ lines_after R.riding cache.old message.old }
    ensures unanswered { answer (line_for R.riding.fresh cache.old (block_of message.old)) message.old ≡ None }
    ensures waits { waiting.new ≡ waits cache.new }
{
    cache.take(message);
    *waiting = cache.waits();
}

/// The cache takes a message from home that ends no wait, and answers it in this place. No line begins to wait, and
/// none stops.
#[tactic(auto, using(crate::proofs::WaitingLines::is_answered))]
fn respond<R: Rider>(cache: &mut Cache<R>, message: FromHome<&R>, reply: &mut ResponseSlot<R>)
    requires row { let seen = message_seen message in
        IsTrue (has_row (line_for R.riding.fresh cache.old (block_of seen)) seen) }
    requires ends { ends_wait (signal (message_seen message)) ≡ false }
    ensures lines { cache.new ≡ lines_after R.riding cache.old (message_seen message.entry) }
    ensures reply { let seen = message_seen message.entry in
        Some reply.new ≡ answer (line_for R.riding.fresh cache.old (block_of seen)) seen }
    ensures waits { waits cache.new ≡ waits cache.old }
{
    cache.respond(message, reply);
}
