//! Who is told of the accesses of a run.
ghost use Rattle.std.specs.Prelude.{◌≡◌, ◌<◌, OnOk};
ghost use Rattle.rtr_types.specs.declared.access.Access.{Access as SomeAccess};
ghost use Rattle.rtr_types.specs.declared.instr.Instr.{Instr as SomeInstr};

use rtr_types::Access;
use std::alloc::AllocError;

/// Who is told of each access of a core that goes on alone.
pub trait Watch {
    /// The instructions whose accesses it accepts.
    ghost accepts: { Self → SomeInstr → Type 0 };

    /// The watch before an access and after it.
    ghost touched: { Self → SomeAccess → Self → Type 0 };

    /// An access of an instruction that is about to retire. If there is no memory for it, the instruction doesn't.
    fn touch(&mut self, access: Access) -> Result<(), AllocError>
        requires { accepts self.old access.at }
        ensures { OnOk result (touched self.old access self.new) };

    /// Later instructions of the core that it accepts it still accepts.
    ghost keeps_accepting: { (w : Self) (a : SomeAccess) (w' : Self) (later : SomeInstr) → touched w a w'
        → later.core ≡ a.at.core → a.at.count < later.count → accepts w later → accepts w' later };
}
