//! A clerk that counts.
ghost use Rattle.std.specs.Prelude.{◌≡◌};

use access_times::{Carry, Clerk, Rider};
use rtr_types::{Access, Instr};
use tso_clerk::TsoClerk;

/// The most logged loads that a counter keeps.
const ROOM: usize = 4;

/// A load that is logged: its core, the count of its instruction, the index of its word, and the value that it got.
pub type Logged = (u8, u32, u32, u32);

/// Accepts each instruction, counts those without data and the accesses, and keeps the logged loads.
#[derive(Drop)]
pub struct Counter {
    pub alone: u32,
    pub accesses: u32,
    pub logged: [Logged; ROOM],
    pub logs: usize,
}

impl Counter {
    /// A counter that was told nothing yet.
    pub fn new() -> Counter {
        Counter {
            alone: 0,
            accesses: 0,
            logged: [(0, 0, 0, 0); ROOM],
            logs: 0,
        }
    }

    /// How many instructions were told, but for logged loads.
    pub fn told(&self) -> u32 {
        self.alone.saturating_add(self.accesses)
    }
}

impl<R: Rider, K: Carry> Clerk<R, K> for Counter {
    ghost accepts = { λ c i. Unit {0} };

    ghost told_local = { λ c i k d. Unit {0} };

    ghost told_touch = { λ c r a k d q. q ≡ r };

    fn local(&mut self, _at: Instr, _carry: &K) {
        self.alone = self.alone.saturating_add(1);
    }

    fn touched(&mut self, _access: Access, _rider: &mut R, _carry: &K) {
        self.accesses = self.accesses.saturating_add(1);
    }
}

impl<R: Rider, K: Carry> TsoClerk<R, K> for Counter {
    ghost accepts_alone = { λ c i. Unit {0} };

    ghost told_logged = { λ c i w v k d. Unit {0} };

    fn alone(&mut self, _at: Instr, _carry: &K) {
        self.alone = self.alone.saturating_add(1);
    }

    fn logged(&mut self, at: Instr, word: u32, value: u32, _carry: &K) {
        if self.logs < ROOM {
            self.logged[self.logs] = (at.core, at.count, word, value);
            self.logs += 1;
        }
    }
}
