//! A core takes a message.
ghost use Rattle.std.specs.Prelude.{◌≡◌, Some, false, true};
ghost use Rattle.rtr_types.specs.CoreSets.{has};
ghost use Rattle.move_marks.specs.Kinds.{set_of};
ghost use Rattle.move_marks.specs.declared.marks.MoveKind.TheVariants.{FromHome};
ghost use Rattle.msi_state.specs.Events.{Accesses, Nothing};
ghost use Rattle.msi_state.specs.declared.moves.Move.{Move};
ghost use Rattle.flat_state.specs.Shows.{IsSomewhere, node_at};
ghost use Rattle.flat_state.specs.declared.message_ring.Told.{Told};
ghost use Rattle.flat_messages.specs.Heard.{is_data, told_next};
ghost use Rattle.flat_marks.specs.Kept.{Follows, IsMarked};

use crate::marking::{mark_links, mark_retired};
use flat_messages::{take_data, take_word};
use flat_state::{Flat, Told};
use move_marks::MoveMarks;
use rtr_types::Access;

/// The core takes its oldest message, which brings no data.
pub fn hear(flat: &mut Flat, marks: &mut MoveMarks, core: u8, told: Told)
    requires stands { IsSomewhere flat.old }
    requires marked { IsMarked flat.old marks.old }
    requires can { has (set_of FromHome marks.old) core ≡ true }
    requires told { told_next (node_at flat.old.nodes.items core).messages ≡ Some told }
    requires word { is_data told ≡ false }
    ensures { Follows flat.old flat.new marks.new (Move.FromHome core) Nothing }
{
    take_word(flat, core, told);
    mark_links(flat, core, marks);
    if let Told::Ack = told {
        // its line waits no more
        mark_retired(flat, core, marks);
    }
}

/// The core takes its oldest message, which tells it of a block's data, and retires the instruction that waited for
/// them. It answers that instruction's access.
pub fn hear_data(flat: &mut Flat, marks: &mut MoveMarks, core: u8) -> Access
    requires stands { IsSomewhere flat.old }
    requires marked { IsMarked flat.old marks.old }
    requires can { has (set_of FromHome marks.old) core ≡ true }
    requires brings { told_next (node_at flat.old.nodes.items core).messages ≡ Some Told.Data }
    ensures { Follows flat.old flat.new marks.new (Move.FromHome core) (Accesses result) }
{
    let access = take_data(flat, core);
    mark_links(flat, core, marks);
    mark_retired(flat, core, marks);
    access
}
