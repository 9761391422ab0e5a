//! Who hears of a step whether it changed a word.
ghost use Rattle.std.specs.Prelude.{◌≡◌, ◌||◌, ℕ};

use access_times::{Carry, Clerk, Rider};
use rtr_types::{Access, Instr};
use tso_clerk::TsoClerk;

/// Whether an access wrote another value to its word since it was made. It accepts every instruction.
#[derive(Clone, Copy, Drop)]
pub(crate) struct Changes {
    pub changed: bool,
}

impl<R: Rider, K: Carry> Clerk<R, K> for Changes {
    ghost use Rattle.hunt_runs.specs.Told.{ToldTouch};

    ghost accepts = { λ c i. Unit {0} };

    ghost told_local = { λ c i k d. d ≡ c };

    ghost told_touch = { λ c r a k d q. ToldTouch c r a d q };

    fn local(&mut self, _at: Instr, _carry: &K) {}

    fn touched(&mut self, access: Access, _rider: &mut R, _carry: &K) {
        self.changed |= access.before != access.after;
    }
}

impl<R: Rider, K: Carry> TsoClerk<R, K> for Changes {
    ghost accepts_alone = { λ c i. Unit {0} };

    ghost told_logged = { λ c i w v k d. d ≡ c };

    fn alone(&mut self, _at: Instr, _carry: &K) {}

    fn logged(&mut self, _at: Instr, _word: u32, _value: u32, _carry: &K) {}
}
