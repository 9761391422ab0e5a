//! How far cores may move while one stays.
ghost use Rattle.std.specs.Prelude.{◌≡◌, ◌++◌, IfOk, OnOk, string_bytes};
ghost use Rattle.cut_replay.specs.ClosedCuts.{count_in};
ghost use Rattle.gdb_moves.specs.Sights.{IsOf};
ghost use Rattle.gdb_monitor.specs.Slack.{IsSlackTold, slack_row, slack_rows};

use crate::moves::Extreme;
use crate::texts::no_core;
use debug_place::Place;
use gdb_commands::{Put, Told, bytes_of};
use replay_audit::Audited;
use rtr_types::Cut;
use std::alloc::Global;

/// How far each core may move while this one stays where it is.
pub(crate) fn slack_told(alloc: Global, audited: &Audited, place: &Place, core: u8) -> Told
    requires { IsOf audited.now place.now }
    ensures { IfOk result (IsSlackTold core place.now) }
{
    if core >= place.cores() {
        return no_core(alloc, core);
    }
    let here = place.cut();
    let least = Extreme::Earliest.around(audited, &here, core)?;
    let greatest = Extreme::Latest.around(audited, &here, core)?;
    let mut text = String::new(alloc);
    put_rows(&mut text, place.cores(), &least, &greatest, &here)?;
    Ok(bytes_of(text))
}

/// Puts each core's counts in the least cut, in the greatest, and here.
fn put_rows(text: &mut String, cores: u8, least: &Cut, greatest: &Cut, here: &Cut) -> Put
    ensures { OnOk result (string_bytes text.new
        ≡ string_bytes text.old ++ slack_rows cores least.now greatest.now here.now) }
{
    for core in 0..cores {
        put_row(text, core, least, greatest, here)?;
    }
    Ok(())
}

/// Puts a core's counts in the least cut, in the greatest, and here.
fn put_row(text: &mut String, core: u8, least: &Cut, greatest: &Cut, here: &Cut) -> Put
    ensures { OnOk result (string_bytes text.new
        ≡ string_bytes text.old ++ slack_row least.now greatest.now here.now core) }
{
    let from = count_in(least, core);
    let to = count_in(greatest, core);
    let at = count_in(here, core);
    write!(text, "core {core}: {from} to {to}")?;
    writeln!(text, ", at {at}")
}

/// How many of a core's first instructions a cut has.
fn count_in(cut: &Cut, core: u8) -> u32
    ensures { result ≡ count_in cut.now core }
{
    cut.counts.get(core as usize).copied().unwrap_or(0)
}
