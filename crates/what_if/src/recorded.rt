//! How the cores of a recording end.
ghost use Rattle.std.specs.Prelude.{◌≡◌, ◌++◌, OnOk, string_bytes};
ghost use Rattle.what_if.specs.Recorded.{ended_row, ended_rows, recorded_text};

use crate::telling::{Put, image_of, put_end};
use image_mem::Image;
use replay_audit::Audited;
use rv_core::Outcome;
use std::alloc::Global;

/// Puts how each core of the recording ends, in a line. It is refused for want of memory alone.
pub fn put_recorded(alloc: Global, text: &mut String, audited: &Audited) -> Put
    ensures { OnOk result (string_bytes text.new ≡ string_bytes text.old ++ recorded_text audited.now) }
{
    let recording = audited.recording();
    let image = image_of(alloc, recording)?;
    put_ended(text, &image, audited.outcome(), recording.params.cores)
}

/// Puts how the cores end by an outcome.
fn put_ended(text: &mut String, image: &Image, outcome: &Outcome, cores: u8) -> Put
    ensures { OnOk result (string_bytes text.new ≡ string_bytes text.old ++ ended_rows image.now outcome.now cores) }
{
    for core in 0..cores {
        put_row(text, image, outcome, core)?;
    }
    Ok(())
}

/// Puts how a core ends by an outcome, in a line.
fn put_row(text: &mut String, image: &Image, outcome: &Outcome, core: u8) -> Put
    ensures { OnOk result (string_bytes text.new ≡ string_bytes text.old ++ ended_row image.now outcome.now core) }
{
    write!(text, "core {core}: retired ")?;
    put_end(text, image, outcome, core)?;
    writeln!(text)
}
