//! Which moves can be made, one bit a core in a set for each kind of move.
ghost use Rattle.std.specs.Prelude.{◌≡◌, ◌<◌, ℕ, Option, false, length, slice_index_or, true};
ghost use Rattle.rtr_types.specs.CoreSets.{has};
ghost use Rattle.rtr_types.specs.declared.TheConstants.{CORES_MAX};
ghost use Rattle.move_marks.specs.Kinds.{set_of};
ghost use Rattle.move_marks.specs.declared.marks.MoveKind.{MoveKind};
ghost use Rattle.move_marks.specs.declared.marks.MoveKind.TheVariants.{Own};
ghost use Rattle.tso_state.specs.declared.moves.Move.{Move};
ghost use Rattle.tso_core.specs.Marks.{last_at_port, marked, marked_past_own, move_of};

use move_marks::{MarkedMove, MoveKind, MoveMarks, count, nth, number_in};
use rtr_types::{CORES_MAX, CoreSet};
use tso_state::Move;

/// Which of the moves of a machine of so many cores are marked: at which cores the oldest pending access can be
/// ordered, and the other moves.
#[derive(Clone, Copy)]
pub struct Marks {
    pub cores: u32,
    pub orders: CoreSet,
    pub moves: MoveMarks,
}

impl Marks {
    /// No move is marked.
    pub(crate) fn none(cores: u32) -> Marks
        ensures cores { result.cores ≡ cores }
        ensures orders { (c : ℕ) → has result.orders c ≡ false }
        ensures none { (kind : MoveKind) (c : ℕ) → has (set_of kind result.moves) c ≡ false }
    {
        Marks {
            cores,
            orders: CoreSet::empty(),
            moves: MoveMarks::none(),
        }
    }

    /// How many moves are marked.
    pub fn count(self) -> u32
        ensures { result ≡ length (marked self) }
    {
        self.moves.count() + count(self.orders)
    }

    /// The marked move of this number, from 0.
    pub fn pick(self, number: u32) -> Move
        requires { number < length (marked self) }
        ensures { (d : Move) → result ≡ slice_index_or (marked self) number d }
    {
        let own = self.moves.set_of(MoveKind::Own);
        let many = count(own);
        if number < many {
            return Move::Core(nth(own, number));
        }
        self.pick_past_own(number - many)
    }

    /// The marked move of this number among those that aren't cores' own.
    fn pick_past_own(self, number: u32) -> Move
        requires { number < length (marked_past_own self) }
        ensures { (d : Move) → result ≡ slice_index_or (marked_past_own self) number d }
    {
        let many = count(self.orders);
        if number < many {
            return Move::Order(nth(self.orders, number));
        }
        move_of(self.moves.pick_at_port(number - many))
    }

    /// Whether the core's own move is marked.
    pub fn has_core(self, core: u8) -> bool
        requires { core < CORES_MAX }
        ensures { result ≡ has (set_of Own self.moves) core }
    {
        self.moves.set_of(MoveKind::Own).has(core)
    }

    /// Whether the move is marked by which the core's oldest pending access is ordered.
    pub fn has_order(self, core: u8) -> bool
        requires { core < CORES_MAX }
        ensures { result ≡ has self.orders core }
    {
        self.orders.has(core)
    }

    /// The number, from 0, of the core's own move, which is marked.
    pub fn number_of_core(self, core: u8) -> u32
        requires core { core < CORES_MAX }
        requires marked { has (set_of Own self.moves) core ≡ true }
        ensures within { result < length (marked self) }
        ensures value { (d : Move) → slice_index_or (marked self) result d ≡ Move.Core core }
    {
        number_in(self.moves.set_of(MoveKind::Own), core)
    }

    /// The number, from 0, of the move by which the core's oldest pending access is ordered, and which is marked.
    pub fn number_of_order(self, core: u8) -> u32
        requires core { core < CORES_MAX }
        requires marked { has self.orders core ≡ true }
        ensures within { result < length (marked self) }
        ensures value { (d : Move) → slice_index_or (marked self) result d ≡ Move.Order core }
    {
        count(self.moves.set_of(MoveKind::Own)) + number_in(self.orders, core)
    }

    /// The number, from 0, of the last marked move, where it is one of a message.
    pub fn last_at_port(self) -> Option<u32>
        ensures { result ≡ last_at_port self }
    {
        match self.moves.last_at_port() {
            None => None,
            Some(_) => Some(self.count() - 1),
        }
    }
}

/// The move of a kind at a core.
fn move_of(taken: MarkedMove) -> Move
    ensures { result ≡ move_of taken }
{
    match taken.kind {
        MoveKind::Own => Move::Core(taken.core),
        MoveKind::Request => Move::Request(taken.core),
        MoveKind::Response => Move::Response(taken.core),
        MoveKind::FromHome => Move::FromHome(taken.core),
    }
}
