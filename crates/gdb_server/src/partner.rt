//! Who answers packets.
ghost use Rattle.std.specs.Prelude.{◌≡◌, IfOk, List, ℕ};
ghost use Rattle.gdb_server.specs.declared.partner.Answer.{Answer};

use rtr_types::Items;
use std::alloc::{AllocError, Global};

/// What is to be done behind an answer.
#[derive(Clone, Copy, Debug, PartialEq, Eq)]
pub enum Next {
    /// The next packet is heard.
    Listen,
    /// Nothing is acknowledged any more, and the next packet is heard.
    StopAcks,
    /// The session is over.
    End,
}

impl Next {
    ghost use Rattle.gdb_server.specs.Wires.{is_last, stops_acks};

    /// Whether the session is over.
    pub(crate) fn is_last(self) -> bool
        ensures { result ≡ is_last self }
    {
        matches!(self, Next::End)
    }

    /// Whether nothing is acknowledged any more.
    pub(crate) fn stops_acks(self) -> bool
        ensures { result ≡ stops_acks self }
    {
        matches!(self, Next::StopAcks)
    }
}

/// The answer to a packet.
#[derive(Drop)]
pub struct Answer {
    /// The payloads of the frames to be sent, in order. There may be none.
    pub payloads: Items<Items<u8>>,
    /// What is to be done behind them.
    pub next: Next,
}

/// Who answers packets. It has two meanings for contracts.
pub trait Partner {
    /// What an answer is: the partner before, the packet's payload, the partner after, and the answer.
    ghost answers: { Self → List ℕ → Self → Answer → Type 0 };

    /// What an interrupt does: the partner before and after.
    ghost interrupts: { Self → Self → Type 0 };

    /// Answers a packet. It is refused for want of memory alone.
    fn answer(&mut self, alloc: Global, packet: &[u8]) -> Result<Answer, AllocError>
        ensures { IfOk result (λ answer. answers self.old packet.now self.new answer) };

    /// Takes an interrupt.
    fn interrupt(&mut self)
        ensures { interrupts self.old self.new };
}
