//! Cuts with names.
ghost use Rattle.std.specs.Prelude.{◌≡◌, IfOk, OnErr, OnOk};
ghost use Rattle.debug_place.specs.Places.{IsKept, cut_at};
ghost use Rattle.cut_marks.specs.Marks.{mark_of, with_mark};
ghost use Rattle.gdb_moves.specs.Sights.{IsOf};
ghost use Rattle.gdb_monitor.specs.Marking.{GoesToMark, no_mark_text};
ghost use Rattle.gdb_monitor.specs.Texts.{here_text};

use crate::moves::go_to_cut;
use crate::texts::cut_text;
use cut_marks::Marks;
use debug_place::Place;
use gdb_commands::Told;
use replay_audit::Audited;
use rtr_types::Items;
use std::alloc::Global;

/// The place's cut has this name from here on. After want of memory all is as it was.
pub(crate) fn mark_here(alloc: Global, place: &Place, marks: &mut Marks, name: &[u8]) -> Told
    ensures told { IfOk result (λ told. told ≡ here_text place.now) }
    ensures ok { OnOk result (marks.new ≡ with_mark (mark_of name.now (cut_at place.now)) marks.old) }
    ensures err { OnErr result (marks.new ≡ marks.old) }
{
    let cut = place.cut();
    let told = cut_text(alloc, &cut)?;
    marks.put(alloc, name, &cut)?;
    Ok(told)
}

/// To the cut with this name, if there is one.
pub(crate) fn go_to_mark(
    alloc: Global,
    audited: &Audited,
    place: &mut Place,
    marks: &Marks,
    name: &[u8],
) -> Told
    requires { IsOf audited.now place.old }
    ensures kept { IsKept place.old place.new }
    ensures ok { IfOk result (GoesToMark name.now marks.now place.old place.new) }
    ensures err { OnErr result (place.new ≡ place.old) }
{
    match marks.counts(name) {
        Some(counts) => go_to_cut(alloc, audited, place, counts),
        None => no_mark(alloc, name),
    }
}

/// That no cut has this name.
fn no_mark(alloc: Global, name: &[u8]) -> Told
    ensures { IfOk result (λ text. text ≡ no_mark_text name.now) }
{
    let mut text = Vec::new(alloc);
    text.extend_from_slice("rtr_gdb: no mark '".as_bytes())?;
    text.extend_from_slice(name)?;
    text.extend_from_slice("'; goto takes C:N, N N .. or the name of a mark\n".as_bytes())?;
    Ok(Items::from_vec(text))
}
