//! The messages from home that are on their way to a core.
ghost use Rattle.std.specs.Prelude.{◌≡◌, ◌<◌, ◌++◌, ◌∷◌, [], List, false, length};
ghost use Rattle.link_order.specs.Queue.{is_nil};
ghost use Rattle.flat_state.specs.declared.message_ring.Message.{Message};

use std::marker::Model;

/// What the home tells a core. Data stay where they are: a core that is told of them may look at them there.
#[derive(Clone, Copy)]
pub enum Told {
    Data,
    Ack,
    Inv,
    FwdS,
    FwdM,
}

/// A message from home: what it tells, and the place of its block's entry.
#[derive(Clone, Copy)]
pub struct Message {
    pub place: u32,
    pub told: Told,
}

/// Up to sixteen messages, the oldest first.
#[derive(Drop)]
pub struct MessageRing {
    slots: [Message; 16],
    first: u32,
    count: u32,
}

impl Model for MessageRing {
    ghost use Rattle.std.specs.Prelude.{◌≡◌, ◌≤◌, ◌<◌, List, length};
    ghost use Rattle.link_order.specs.Queue.{around};
    ghost use Rattle.flat_state.specs.declared.message_ring.Message.{Message};

    ghost Value = { List Message };

    ghost view = { λ a. around a.slots a.first a.count };

    ghost invariant = { λ a. (length a.slots ≡ 16) × (a.first < 16) × (a.count ≤ 16) };
}

impl MessageRing {
    /// A ring with no message.
    pub fn new() -> MessageRing
        ensures { result ≡ [] }
    {
        MessageRing {
            slots: [Message {
                place: 0,
                told: Told::Ack,
            }; 16],
            first: 0,
            count: 0,
        }
    }

    /// Whether there is no message.
    pub fn is_empty(&self) -> bool
        ensures { result ≡ is_nil self.now }
    {
        self.count == 0
    }

    /// The oldest message, which stays.
    #[tactic(auto, using(crate::proofs::RingWrites::some_around))]
    pub fn first(&self) -> Message
        requires { is_nil self.now ≡ false }
        ensures { (later : List Message) × (self.now ≡ result ∷ later) }
    {
        self.slots[self.first as usize]
    }

    /// Puts a message behind all others.
    #[tactic(auto, using(link_order::proofs::Rings::length_around, crate::proofs::RingWrites::written))]
    pub fn push(&mut self, message: Message)
        requires { length self.old < 16 }
        ensures { self.new ≡ self.old ++ message ∷ [] }
    {
        let place = (self.first + self.count) % 16;
        self.slots[place as usize] = message;
        self.count += 1;
    }

    /// Takes the oldest message.
    #[tactic(auto, using(crate::proofs::RingWrites::some_around))]
    pub fn take(&mut self) -> Message
        requires { is_nil self.old ≡ false }
        ensures { self.old ≡ result ∷ self.new }
    {
        let message = self.slots[self.first as usize];
        self.first = (self.first + 1) % 16;
        self.count -= 1;
        message
    }
}
