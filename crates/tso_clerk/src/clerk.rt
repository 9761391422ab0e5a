//! Who is told of each instruction of a machine with store buffers.
ghost use Rattle.std.specs.Prelude.{ℕ};
ghost use Rattle.rtr_types.specs.declared.instr.Instr.{Instr};

use access_times::{Carry, Clerk, Rider};
use rtr_types::Instr;

/// Observer of retirements on cores with store buffers. Each instruction is reported once, in its core's program order:
/// an access as it is ordered, by `touched`; a load that leaves its queue and isn't ordered, by `logged`; and an
/// instruction that touches no data once none of its core's accesses before it is pending, by `alone`. In one step a
/// clerk may be told of several instructions of one core, of which the first alone may be an access or a logged load.
///
/// So `alone` needs less of the clerk than the other calls, as there may be no room for another access. A clerk whose
/// calls take no room accepts all.
pub trait TsoClerk<R: Rider, K: Carry>: Clerk<R, K> {
    /// The instructions that the clerk accepts where they touch no data.
    ghost accepts_alone: { Self → Instr → Type 0 };

    /// What `logged` does: the clerk before, the arguments, and the clerk after.
    ghost told_logged: { Self → Instr → ℕ → ℕ → K → Self → Type 0 };

    /// An instruction that touches no data, and none of whose core's accesses before it is pending. `carry` is its
    /// core's, once it was told. It does what `local` does.
    fn alone(&mut self, at: Instr, carry: &K)
        requires { accepts_alone self.old at }
        ensures { Self.told_local self.old at carry.now self.new };

    /// A load that leaves its core's queue and isn't ordered: the index of its word, and the value that it got.
    /// `carry` is its core's, once it was told.
    fn logged(&mut self, at: Instr, word: u32, value: u32, carry: &K)
        requires { Self.accepts self.old at }
        ensures { told_logged self.old at word value carry.now self.new };
}
