//! What a core stands at, and whether its port waits.
ghost use Rattle.std.specs.Prelude.{◌≡◌, ◌≢◌, ◌≤◌, ◌&&◌, ℕ, IfOk, false, length, map, not};
ghost use Rattle.std.specs.List.{list_all};
ghost use Rattle.rv_core.specs.Steps.{is_done};
ghost use Rattle.rtr_types.specs.CoreSets.{has};
ghost use Rattle.rtr_types.specs.declared.TheConstants.{CORES_MAX};
ghost use Rattle.move_marks.specs.Kinds.{set_of};
ghost use Rattle.move_marks.specs.declared.marks.MoveKind.{MoveKind};
ghost use Rattle.move_marks.specs.declared.marks.MoveKind.TheVariants.{Own};
ghost use Rattle.msi_machine.specs.Standings.{may_begin, standing_with};

use crate::marks::Marks;
use move_marks::MoveKind;
use rtr_types::CORES_MAX;
use rv_core::{Core, Need, Program};
use rv_decode::Op;
use std::alloc::{AllocError, Global};

/// A core's next instruction, what that needs, and whether the core's port waits for a message from home.
/// It is kept beside each core, so that an instruction is decoded once, and the moves that can be made are
/// found without a look at instructions or lines.
#[derive(Clone, Copy)]
pub struct Standing {
    pub need: Need,
    pub op: Option<Op>,
    pub waits: bool,
}

impl Standing {
    /// That of a core at whose port nothing waits.
    fn of(program: &Program, core: &Core) -> Standing
        ensures { result ≡ standing_with program.now core.now false }
    {
        let op = program.op(core.pc());
        Standing {
            need: core.need_by_op(program.image(), op),
            op,
            waits: false,
        }
    }

    /// Whether the core itself may move.
    pub(crate) fn may_move(self) -> bool
        ensures { result ≡ (not (is_done self.need) && not self.waits) }
    {
        !self.need.is_done() && !self.waits
    }

    /// The core's next instruction is another now.
    #[inline(always)]
    pub(crate) fn look_ahead(&mut self, program: &Program, core: &Core)
        ensures { self.new ≡ standing_with program.now core.now self.old.waits }
    {
        self.op = program.op(core.pc());
        self.need = core.need_by_op(program.image(), self.op);
    }
}

/// What cores stand at whose ports don't wait.
pub(crate) fn first_standings(
    alloc: Global,
    program: &Program,
    cores: &[Core],
) -> Result<Vec<Standing>, AllocError>
    ensures { IfOk result (λ found. found.items ≡ map (λ core. standing_with program.now core false) cores.now) }
{
    let mut found = Vec::with_capacity(alloc, cores.len())?;
    for core in cores {
        found.push(Standing::of(program, core))?;
    }
    Ok(found)
}

/// Whether each core's program is done.
pub(crate) fn are_done(standings: &[Standing]) -> bool
    ensures { result ≡ list_all (λ s. is_done s.need) standings.now }
{
    standings.iter().all(|s| s.need.is_done())
}

/// The marks of a machine in which nothing is under way: each core that may move is marked.
pub(crate) fn first_marks(standings: &[Standing]) -> Marks
    requires few { length standings.now ≤ CORES_MAX }
    ensures cores { result.cores ≡ length standings.now }
    ensures own { (c : ℕ) → has (set_of Own result.moves) c ≡ may_begin standings.now c }
    ensures others { (kind : MoveKind) → kind ≢ Own → (c : ℕ) → has (set_of kind result.moves) c ≡ false }
{
    let mut marks = Marks::none(standings.len() as u32);
    for (c, standing) in standings.iter().enumerate() {
        marks.moves.set(MoveKind::Own, c as u8, standing.may_move());
    }
    marks
}
