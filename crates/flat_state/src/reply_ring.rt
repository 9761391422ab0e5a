//! The responses of a core that are on their way to the home.
ghost use Rattle.std.specs.Prelude.{◌≡◌, ◌<◌, ◌++◌, ◌∷◌, [], false, length};
ghost use Rattle.link_order.specs.Queue.{is_nil};

use std::marker::Model;

/// What a core answers: that its copy is given up, or that the block's words are no longer its own to write.
#[derive(Clone, Copy)]
pub enum Replied {
    InvAck,
    OwnerData,
}

/// A response: what it answers, and the place of its block's entry.
#[derive(Clone, Copy)]
pub struct Reply {
    pub place: u32,
    pub replied: Replied,
}

/// Up to sixteen responses, the oldest first.
#[derive(Drop)]
pub struct ReplyRing {
    slots: [Reply; 16],
    first: u32,
    count: u32,
}

impl Model for ReplyRing {
    ghost use Rattle.std.specs.Prelude.{◌≡◌, ◌≤◌, ◌<◌, List, length};
    ghost use Rattle.link_order.specs.Queue.{around};
    ghost use Rattle.flat_state.specs.declared.reply_ring.Reply.{Reply};

    ghost Value = { List Reply };

    ghost view = { λ a. around a.slots a.first a.count };

    ghost invariant = { λ a. (length a.slots ≡ 16) × (a.first < 16) × (a.count ≤ 16) };
}

impl ReplyRing {
    /// A ring with no response.
    pub fn new() -> ReplyRing
        ensures { result ≡ [] }
    {
        ReplyRing {
            slots: [Reply {
                place: 0,
                replied: Replied::InvAck,
            }; 16],
            first: 0,
            count: 0,
        }
    }

    /// Whether there is no response.
    pub fn is_empty(&self) -> bool
        ensures { result ≡ is_nil self.now }
    {
        self.count == 0
    }

    /// Puts a response behind all others.
    #[tactic(auto, using(link_order::proofs::Rings::length_around, crate::proofs::RingWrites::written))]
    pub fn push(&mut self, reply: Reply)
        requires { length self.old < 16 }
        ensures { self.new ≡ self.old ++ reply ∷ [] }
    {
        let place = (self.first + self.count) % 16;
        self.slots[place as usize] = reply;
        self.count += 1;
    }

    /// Takes the oldest response.
    #[tactic(auto, using(crate::proofs::RingWrites::some_around))]
    pub fn take(&mut self) -> Reply
        requires { is_nil self.old ≡ false }
        ensures { self.old ≡ result ∷ self.new }
    {
        let reply = self.slots[self.first as usize];
        self.first = (self.first + 1) % 16;
        self.count -= 1;
        reply
    }
}
