//! Which moves can be made, one bit a core in a set for each kind of move.
ghost use Rattle.std.specs.Prelude.{◌≡◌, ◌==◌, ◌<◌, ℕ, false, length, slice_index_or, true};
ghost use Rattle.rtr_types.specs.CoreSets.{has};
ghost use Rattle.rtr_types.specs.declared.TheConstants.{CORES_MAX};
ghost use Rattle.move_marks.specs.Kinds.{last_at_port, set_of};
ghost use Rattle.move_marks.specs.declared.marks.MoveKind.{MoveKind};
ghost use Rattle.move_marks.specs.declared.marks.MoveKind.TheVariants.{Own};
ghost use Rattle.msi_state.specs.declared.moves.Move.{Move};
ghost use Rattle.msi_machine.specs.Marks.{made_of, marked};

use move_marks::{MarkedMove, MoveKind, MoveMarks, number_in};
use msi_state::Move;
use rtr_types::CORES_MAX;

/// Which of the moves of a machine of so many cores are marked.
#[derive(Clone, Copy)]
pub struct Marks {
    pub cores: u32,
    pub moves: MoveMarks,
}

impl Marks {
    /// No move is marked.
    pub(crate) fn none(cores: u32) -> Marks
        ensures cores { result.cores ≡ cores }
        ensures none { (kind : MoveKind) (c : ℕ) → has (set_of kind result.moves) c ≡ false }
    {
        Marks {
            cores,
            moves: MoveMarks::none(),
        }
    }

    /// Whether no move is marked.
    pub(crate) fn is_empty(self) -> bool
        ensures { result ≡ (length (marked self) == 0) }
    {
        self.moves.is_empty()
    }

    /// How many moves are marked.
    pub fn count(self) -> u32
        ensures { result ≡ length (marked self) }
    {
        self.moves.count()
    }

    /// The marked move of this number, from 0.
    pub fn pick(self, number: u32) -> Move
        requires { number < length (marked self) }
        ensures { (d : Move) → result ≡ slice_index_or (marked self) number d }
    {
        let MarkedMove { kind, core } = self.moves.pick(number);
        made_of(kind, core)
    }

    /// Whether the core's own move is marked.
    pub fn has_core(self, core: u8) -> bool
        requires { core < CORES_MAX }
        ensures { result ≡ has (set_of Own self.moves) core }
    {
        self.moves.set_of(MoveKind::Own).has(core)
    }

    /// The number, from 0, of the core's own move, which is marked.
    pub fn number_of_core(self, core: u8) -> u32
        requires core { core < CORES_MAX }
        requires marked { has (set_of Own self.moves) core ≡ true }
        ensures within { result < length (marked self) }
        ensures value { (d : Move) → slice_index_or (marked self) result d ≡ Move.Core core }
    {
        number_in(self.moves.set_of(MoveKind::Own), core)
    }

    /// The number, from 0, of the last marked move, where it isn't a core's own.
    pub fn last_at_port(self) -> Option<u32>
        ensures { result ≡ last_at_port self.moves }
    {
        self.moves.last_at_port()
    }
}

/// The move of a kind at a core.
fn made_of(kind: MoveKind, core: u8) -> Move
    ensures { result ≡ made_of kind core }
{
    match kind {
        MoveKind::Own => Move::Core(core),
        MoveKind::Request => Move::Request(core),
        MoveKind::Response => Move::Response(core),
        MoveKind::FromHome => Move::FromHome(core),
    }
}
