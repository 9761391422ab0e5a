//! A session that is played line by line.
ghost use Rattle.std.specs.Prelude.{◌≡◌, ◌↔◌, [], IfOk, IsTrue};
ghost use Rattle.gdb_transcripts.specs.Playing.{Asks, Does};

use crate::lines::Line;
use gdb_server::Partner;
use gdb_session::Session;
use rtr_types::Items;
use std::alloc::{AllocError, Global};
use std::marker::Model;

/// A session, and what it answered last.
#[derive(Drop)]
pub struct Player<'a> {
    session: Session<'a>,
    told: Items<Items<u8>>,
    heard: usize,
}

impl<'a> Model for Player<'a> {
    ghost use Rattle.std.specs.Prelude.{◌≤◌, drop, length};
    ghost use Rattle.gdb_transcripts.specs.Playing.{Standing};

    ghost Value = { Standing };

    ghost view = { λ a. record { seat = a.session; left = drop a.heard a.told } };

    ghost invariant = { λ a. a.heard ≤ length a.told };
}

impl<'a> Player<'a> {
    /// A session that has answered nothing yet.
    pub fn new(alloc: Global, session: Session<'a>) -> Player<'a>
        ensures seat { result.seat ≡ session.entry }
        ensures left { result.left ≡ [] }
    {
        Player {
            session,
            told: Items::new(alloc),
            heard: 0,
        }
    }

    /// Whether the session does as the line says. It is refused for want of memory alone.
    pub fn plays(&mut self, alloc: Global, line: Line) -> Result<bool, AllocError>
        ensures { IfOk result (λ does. IsTrue does → Does line.entry self.old self.new) }
    {
        match line {
            Line::Packet(packet) => self.asks(alloc, packet),
            Line::Interrupt => {
                self.session.interrupt();
                Ok(self.is_heard())
            }
            Line::Answer(payload) => Ok(self.hears(payload)),
            Line::Silence | Line::Blank => Ok(self.is_heard()),
            Line::Unknown => Ok(false),
        }
    }

    /// Whether all that the session answered was compared.
    #[tactic(auto, using(crate::proofs::ListRests::left_nil))]
    pub fn is_heard(&self) -> bool
        ensures { IsTrue result ↔ (self.now.left ≡ []) }
    {
        self.heard == self.told.len()
    }

    /// Sends a packet, where all answers before were compared.
    fn asks(&mut self, alloc: Global, packet: &[u8]) -> Result<bool, AllocError>
        ensures { IfOk result (λ does. IsTrue does → Asks packet.now self.old self.new) }
    {
        if !self.is_heard() {
            return Ok(false);
        }
        self.told = self.session.answer(alloc, packet)?.payloads;
        self.heard = 0;
        Ok(true)
    }

    /// Whether the next answer has this payload.
    #[tactic(auto, using(std::proofs::lemmas::List::drop_more))]
    fn hears(&mut self, payload: &[u8]) -> bool
        ensures { IsTrue result → Does (Line.Answer payload.entry) self.old self.new }
    {
        let told = self.told.as_slice();
        if self.heard < told.len() && told[self.heard].as_slice() == payload {
            self.heard += 1;
            return true;
        }
        false
    }
}
