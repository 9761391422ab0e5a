//! What a core stands at.
ghost use Rattle.std.specs.Prelude.{◌≡◌, ◌≢◌, ◌≤◌, ℕ, IfOk, false, length, map};
ghost use Rattle.rtr_types.specs.CoreSets.{has};
ghost use Rattle.rtr_types.specs.declared.TheConstants.{CORES_MAX};
ghost use Rattle.move_marks.specs.Kinds.{set_of};
ghost use Rattle.move_marks.specs.declared.marks.MoveKind.{MoveKind};
ghost use Rattle.move_marks.specs.declared.marks.MoveKind.TheVariants.{Own};
ghost use Rattle.tso_core.specs.Standings.{may_begin, standing_with};
ghost use Rattle.tso_state.specs.Steps.{is_fence_op};
ghost use Rattle.rv_core.specs.Steps.{is_done};

use crate::marks::Marks;
use crate::station::Station;
use move_marks::MoveKind;
use rtr_types::CORES_MAX;
use rv_core::{Core, Need, Program};
use rv_decode::Op;
use std::alloc::{AllocError, Global};

/// A core's next instruction, and what that needs. It is kept beside each core, so that an instruction is decoded
/// once.
#[derive(Clone, Copy)]
pub struct Standing {
    pub need: Need,
    pub op: Option<Op>,
}

impl Standing {
    /// That of a core.
    #[inline(always)]
    pub(crate) fn of(program: &Program, core: &Core) -> Standing
        ensures { result ≡ standing_with program.now core.now }
    {
        let op = program.op(core.pc());
        Standing {
            need: core.need_by_op(program.image(), op),
            op,
        }
    }

    /// Whether the instruction is a FENCE.
    pub(crate) fn is_fence(self) -> bool
        ensures { result ≡ is_fence_op self.op }
    {
        matches!(self.op, Some(Op::Fence))
    }
}

/// What each core stands at.
pub(crate) fn first_standings(
    alloc: Global,
    program: &Program,
    cores: &[Station],
) -> Result<Vec<Standing>, AllocError>
    ensures { IfOk result (λ found. found.items ≡ map (λ t. standing_with program.now t.core) cores.now) }
{
    let mut found = Vec::with_capacity(alloc, cores.len())?;
    for station in cores {
        found.push(Standing::of(program, station.core()))?;
    }
    Ok(found)
}

/// The marks of a machine in which nothing is under way or pending: each core whose program isn't done is marked.
pub(crate) fn first_marks(standings: &[Standing]) -> Marks
    requires few { length standings.now ≤ CORES_MAX }
    ensures cores { result.cores ≡ length standings.now }
    ensures own { (c : ℕ) → has (set_of Own result.moves) c ≡ may_begin standings.now c }
    ensures orders { (c : ℕ) → has result.orders c ≡ false }
    ensures others { (kind : MoveKind) → kind ≢ Own → (c : ℕ) → has (set_of kind result.moves) c ≡ false }
{
    let mut marks = Marks::none(standings.len() as u32);
    for (c, standing) in standings.iter().enumerate() {
        marks
            .moves
            .set(MoveKind::Own, c as u8, !standing.need.is_done());
    }
    marks
}
