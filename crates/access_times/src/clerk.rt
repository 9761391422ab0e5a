//! Who is told of each retirement.
ghost use Rattle.rtr_types.specs.declared.access.Access.{Access};
ghost use Rattle.rtr_types.specs.declared.instr.Instr.{Instr};

use crate::carry::Carry;
use crate::rider::Rider;
use rtr_types::{Access, Instr};

/// Observer of retirements: it is told of each retired instruction, once, by the one of its two calls that fits. Both
/// need the instruction to be one that the clerk accepts; a clerk whose calls take no room accepts all.
pub trait Clerk<R: Rider, K: Carry> {
    /// The instructions that the clerk accepts.
    ghost accepts: { Self → Instr → Type 0 };

    /// What `local` does: the clerk before, the arguments, and the clerk after.
    ghost told_local: { Self → Instr → K → Self → Type 0 };

    /// What `touched` does: the clerk and the rider before, the other arguments, and the clerk and
    /// the rider after.
    ghost told_touch: { Self → R → Access → K → Self → R → Type 0 };

    /// An instruction retired that touches no data. `carry` is its core's, once it has retired.
    fn local(&mut self, at: Instr, carry: &K)
        requires { accepts self.old at }
        ensures { told_local self.old at carry.now self.new };

    /// An instruction retired with the access. `rider` is that of the block's copy in the core's
    /// cache, and `carry` is the core's, once it has retired.
    fn touched(&mut self, access: Access, rider: &mut R, carry: &K)
        requires { accepts self.old access.at }
        ensures { told_touch self.old rider.old access carry.now self.new rider.new };
}
