//! What each command does.
ghost use Rattle.std.specs.Prelude.{◌≡◌, IfOk, OnErr, OnOk};
ghost use Rattle.debug_place.specs.Places.{IsKept};
ghost use Rattle.gdb_moves.specs.Sights.{IsOf};
ghost use Rattle.gdb_monitor.specs.Marking.{marks_after};
ghost use Rattle.gdb_monitor.specs.Obeying.{Asks, AuditTells, Obeys};

use crate::lasts::go_to_last;
use crate::leading::lead_told;
use crate::marking::{go_to_mark, mark_here};
use crate::moves::{Extreme, go_around, go_to, go_to_cut, go_to_decision};
use crate::ordering::order_told;
use crate::other_way::other_told;
use crate::slack::slack_told;
use crate::texts::cut_text;
use crate::whens::when_told;
use cut_marks::Marks;
use debug_place::Place;
use gdb_commands::{Command, unmeant_told};
use race_answers::{
    calls_told, conflicts_told, decisions_told, edges_told, history_told, info_told, readers_told,
    trace_told, why_told, writer_told,
};
use replay_audit::Audited;
use rtr_types::{Cut, Items};
use std::alloc::{AllocError, Global};

/// Does what a command asks for at a place of this audited recording, and answers what is told. If an instruction, a
/// core or a cut isn't there, the answer says so. Of a text that is no command it says how the command goes, or which
/// there are. A refusal, which comes for want of memory alone, leaves place and marks as they were.
pub fn obey(
    alloc: Global,
    audited: &Audited,
    place: &mut Place,
    marks: &mut Marks,
    command: &Command,
) -> Result<Items<u8>, AllocError>
    requires { IsOf audited.now place.old }
    ensures kept { IsKept place.old place.new }
    ensures ok { IfOk result (Obeys command.now marks.old place.old place.new) }
    ensures err { OnErr result (place.new ≡ place.old) }
    ensures marks { OnOk result (marks.new ≡ marks_after command.now place.old marks.old) }
    ensures unmarked { OnErr result (marks.new ≡ marks.old) }
{
    match command {
        Command::Cut => cut_text(alloc, &place.cut()),
        Command::GoTo(at) => go_to(alloc, audited, place, *at),
        Command::GoToCut(counts) => go_to_cut(alloc, audited, place, counts.as_slice()),
        Command::GoToMark(name) => go_to_mark(alloc, audited, place, marks, name.as_slice()),
        Command::Mark(name) => mark_here(alloc, place, marks, name.as_slice()),
        Command::Marks => marks.told(alloc),
        Command::Earliest(core) => go_around(alloc, audited, place, Extreme::Earliest, *core),
        Command::Latest(core) => go_around(alloc, audited, place, Extreme::Latest, *core),
        Command::Edges(_) => ask(alloc, audited, place, command),
        Command::Writer(_) => ask(alloc, audited, place, command),
        Command::Readers(_) => ask(alloc, audited, place, command),
        Command::History(_, _) => ask(alloc, audited, place, command),
        Command::Conflicts(_) => ask(alloc, audited, place, command),
        Command::Decisions => ask(alloc, audited, place, command),
        Command::Order(at, other) => order_told(alloc, audited, place, *at, *other),
        Command::Decision(at, other) => go_to_decision(alloc, audited, place, *at, *other),
        Command::Lead(core) => lead_told(alloc, *core, place.cores()),
        Command::Last(word) => go_to_last(alloc, audited, place, *word),
        Command::Slack(core) => slack_told(alloc, audited, place, *core),
        Command::Why(_) => ask(alloc, audited, place, command),
        Command::Other(_, _) => ask(alloc, audited, place, command),
        Command::When => when_told(alloc, audited, place),
        Command::Info => ask(alloc, audited, place, command),
        Command::Trace(_, _) => ask(alloc, audited, place, command),
        Command::Calls(_) => ask(alloc, audited, place, command),
        Command::Unmeant(word) => unmeant_told(alloc, word.as_slice()),
    }
}

/// What a command that asks for a word, an instruction, a pc or all decisions is told.
fn ask(
    alloc: Global,
    audited: &Audited,
    place: &Place,
    command: &Command,
) -> Result<Items<u8>, AllocError>
    requires { IsOf audited.now place.now }
    ensures { IfOk result (Asks command.now place.now place.now) }
{
    // The audit passed.
    let _ = audited.outcome();
    audit_tells(alloc, audited, &place.cut(), command)
}

/// The same, at a cut.
fn audit_tells(
    alloc: Global,
    audited: &Audited,
    cut: &Cut,
    command: &Command,
) -> Result<Items<u8>, AllocError>
    ensures { IfOk result (AuditTells command.now audited.now cut.now) }
{
    match command {
        Command::Edges(at) => edges_told(alloc, audited, cut, *at),
        Command::Writer(word) => writer_told(alloc, audited, cut, *word),
        Command::Readers(word) => readers_told(alloc, audited, cut, *word),
        Command::History(word, filter) => history_told(alloc, audited, cut, *word, *filter),
        Command::Conflicts(at) => conflicts_told(alloc, audited, *at),
        Command::Decisions => decisions_told(alloc, audited),
        Command::Why(at) => why_told(alloc, audited, *at),
        Command::Other(at, next) => other_told(alloc, audited, *at, *next),
        Command::Info => info_told(alloc, audited),
        Command::Trace(at, near) => trace_told(alloc, audited, cut, *at, *near),
        Command::Calls(pc) => calls_told(alloc, audited, *pc),
        _ => Ok(Items::new(alloc)),
    }
}
