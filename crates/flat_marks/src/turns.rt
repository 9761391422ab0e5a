//! The home's turns.
ghost use Rattle.std.specs.Prelude.{◌≡◌, true};
ghost use Rattle.rtr_types.specs.CoreSets.{has};
ghost use Rattle.move_marks.specs.Kinds.{set_of};
ghost use Rattle.move_marks.specs.declared.marks.MoveKind.TheVariants.{Request, Response};
ghost use Rattle.msi_state.specs.Events.{Nothing};
ghost use Rattle.msi_state.specs.declared.moves.Move.{Move};
ghost use Rattle.flat_state.specs.Shows.{IsSomewhere};
ghost use Rattle.flat_marks.specs.Kept.{Follows, IsMarked};

use crate::marking::{mark_replies, mark_turn, set_asker};
use flat_home::{take_request, take_response};
use flat_state::Flat;
use move_marks::{MoveKind, MoveMarks};

/// The home takes the core's request.
pub fn serve(flat: &mut Flat, marks: &mut MoveMarks, core: u8)
    requires stands { IsSomewhere flat.old }
    requires marked { IsMarked flat.old marks.old }
    requires can { has (set_of Request marks.old) core ≡ true }
    ensures { Follows flat.old flat.new marks.new (Move.Request core) Nothing }
{
    let turn = take_request(flat, core);
    set_asker(flat, core, turn.place, false);
    marks.set(MoveKind::Request, core, false);
    mark_turn(flat, turn, marks);
}

/// The home takes the oldest of the core's responses.
pub fn receive(flat: &mut Flat, marks: &mut MoveMarks, core: u8)
    requires stands { IsSomewhere flat.old }
    requires marked { IsMarked flat.old marks.old }
    requires can { has (set_of Response marks.old) core ≡ true }
    ensures { Follows flat.old flat.new marks.new (Move.Response core) Nothing }
{
    let turn = take_response(flat, core);
    mark_replies(flat, core, marks);
    mark_turn(flat, turn, marks);
}
