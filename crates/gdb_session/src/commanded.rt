//! Commands of the debugger's user.
ghost use Rattle.std.specs.Prelude.{◌≡◌, IfOk, OnOk};
ghost use Rattle.debug_place.specs.Places.{IsKept};
ghost use Rattle.gdb_commands.specs.Commands.{command_of};
ghost use Rattle.gdb_moves.specs.Sights.{IsOf};
ghost use Rattle.gdb_monitor.specs.Marking.{marks_after};
ghost use Rattle.gdb_session.specs.Commanded.{IsCommanded};
ghost use Rattle.gdb_session.specs.Wishes.{Fit, commanded_wishes};

use crate::wishes::{Wishes, commanded_wishes};
use cut_marks::Marks;
use debug_place::Place;
use gdb_commands::{command_of, payloads_of};
use gdb_monitor::obey;
use replay_audit::Audited;
use rtr_types::Items;
use std::alloc::{AllocError, Global};

/// Obeys a command, and answers what is told.
pub(crate) fn commanded(
    alloc: Global,
    audited: &Audited,
    place: &mut Place,
    marks: &mut Marks,
    wishes: &mut Wishes,
    text: &[u8],
) -> Result<Items<Items<u8>>, AllocError>
    requires run { IsOf audited.now place.old }
    requires fit { Fit wishes.old place.old.recording.params.cores }
    ensures kept { IsKept place.old place.new }
    ensures fit { Fit wishes.new place.old.recording.params.cores }
    ensures wishes { OnOk result (wishes.new
        ≡ commanded_wishes wishes.old (command_of text.now) place.old.recording.params.cores) }
    ensures marks { OnOk result (marks.new ≡ marks_after (command_of text.now) place.old marks.old) }
    ensures done { IfOk result (IsCommanded text.now marks.old place.old place.new) }
{
    let cores = place.cores();
    let command = command_of(alloc, text)?;
    let told = obey(alloc, audited, place, marks, &command)?;
    let payloads = payloads_of(alloc, told)?;
    *wishes = commanded_wishes(*wishes, &command, cores);
    Ok(payloads)
}
