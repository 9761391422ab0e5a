//! Where each core is.
ghost use Rattle.std.specs.Prelude.{◌≡◌, ◌<◌, ◌++◌, IfOk, OnOk, slice_index, string_bytes};
ghost use Rattle.gdb_moves.specs.Sights.{IsOf};
ghost use Rattle.gdb_monitor.specs.Whens.{core_row, when_row, when_text};

use debug_place::Place;
use gdb_commands::{Put, Told, bytes_of};
use race_answers::put_word;
use replay_audit::Audited;
use rv_core::Core;
use std::alloc::Global;

/// How many instructions of how many each core has retired, and its pc.
pub(crate) fn when_told(alloc: Global, audited: &Audited, place: &Place) -> Told
    requires { IsOf audited.now place.now }
    ensures { IfOk result (λ told. told ≡ when_text place.now) }
{
    let totals = audited.recording().totals.as_slice();
    let mut text = String::new(alloc);
    put_cores(alloc, &mut text, place, totals)?;
    Ok(bytes_of(text))
}

/// Puts each core, in a line.
fn put_cores(alloc: Global, text: &mut String, place: &Place, totals: &[u32]) -> Put
    requires { totals.now ≡ place.now.recording.totals }
    ensures { OnOk result (string_bytes text.new ≡ string_bytes text.old ++ when_text place.now) }
{
    for core in 0..place.cores() {
        put_row(alloc, text, place, totals, core)?;
    }
    Ok(())
}

/// Puts a core of the place, in a line.
fn put_row(alloc: Global, text: &mut String, place: &Place, totals: &[u32], core: u8) -> Put
    requires core { core < place.now.recording.params.cores }
    requires totals { totals.now ≡ place.now.recording.totals }
    ensures { OnOk result (string_bytes text.new ≡ string_bytes text.old ++ when_row place.now core) }
{
    let total = total_in(totals, core);
    put_core(alloc, text, core, total, &place.core(core))
}

/// A core's total.
fn total_in(totals: &[u32], core: u8) -> u32
    ensures { result ≡ slice_index totals.now core }
{
    totals.get(core as usize).copied().unwrap_or(0)
}

/// Puts a core, in a line.
fn put_core(alloc: Global, text: &mut String, core: u8, total: u32, here: &Core) -> Put
    ensures { OnOk result (string_bytes text.new ≡ string_bytes text.old ++ core_row core total here.now) }
{
    let count = here.count();
    write!(text, "core {core}: {count} of {total}, pc ")?;
    put_word(alloc, text, here.pc())?;
    writeln!(text)
}
