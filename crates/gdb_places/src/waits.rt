//! What a core waits for.
ghost use Rattle.std.specs.Prelude.{◌≡◌, IfOk, OnOk, nat_le};
ghost use Rattle.cut_replay.specs.ClosedCuts.{count_in};
ghost use Rattle.race_log.specs.Sources.{log_edges};
ghost use Rattle.race_log.specs.Validity.{Valid};
ghost use Rattle.gdb_places.specs.Waits.{source_in, wait_of, waits_below, with_wait};

use race_log::Recording;
use rtr_types::{Cut, Instr, Items, Which};
use std::alloc::{AllocError, Global};

/// The sources of an instruction that a cut lacks, by core.
pub(crate) fn waits_of(
    alloc: Global,
    recording: &Recording,
    which: Which,
    cut: &Cut,
    at: Instr,
) -> Result<Items<Instr>, AllocError>
    requires { Valid recording.now }
    ensures { IfOk result (λ list. list ≡ waits_below which recording.now cut.now at recording.now.params.cores) }
{
    let mut list = Items::new(alloc);
    for core in 0..recording.params.cores {
        let wait = wait_of(recording, which, cut, core, at);
        put_wait(&mut list, core, wait)?;
    }
    Ok(list)
}

/// Puts the core's instruction with this count behind others, if there is one.
fn put_wait(list: &mut Items<Instr>, core: u8, wait: Option<u32>) -> Result<(), AllocError>
    ensures { OnOk result (list.new ≡ with_wait list.old core wait) }
{
    if let Some(count) = wait {
        list.push(Instr { core, count })?;
    }
    Ok(())
}

/// The count of a core's instruction that leads to this one by an edge of the log, where the cut lacks it.
fn wait_of(recording: &Recording, which: Which, cut: &Cut, core: u8, at: Instr) -> Option<u32>
    requires { Valid recording.now }
    ensures { result ≡ wait_of which recording.now cut.now core at }
{
    let count = source_of(recording, which, core, at)?;
    if is_in(cut, core, count) {
        None
    } else {
        Some(count)
    }
}

/// The count of a core's instruction that leads to this one by an edge of the log, of which there is at most one.
fn source_of(recording: &Recording, which: Which, core: u8, at: Instr) -> Option<u32>
    requires { Valid recording.now }
    ensures { result ≡ source_in (log_edges which recording.now) core at }
{
    recording.source(which, core, at)
}

/// Whether the cut holds the core's instruction with this count.
fn is_in(cut: &Cut, core: u8, count: u32) -> bool
    ensures { result ≡ nat_le count (count_in cut.now core) }
{
    match cut.counts.get(core as usize) {
        Some(most) => count <= *most,
        None => count == 0,
    }
}
