//! What is told of a place.
ghost use Rattle.std.specs.Prelude.{◌≡◌, ◌++◌, IfOk, OnOk, string_bytes};
ghost use Rattle.gdb_monitor.specs.Texts.{cut_counts, cut_text, no_core_text, no_counts_text, open_text};

use gdb_commands::{Put, Told, bytes_of, line, put_counts};
use rtr_types::Cut;
use std::alloc::Global;

/// A cut.
pub(crate) fn cut_text(alloc: Global, cut: &Cut) -> Told
    ensures { IfOk result (λ text. text ≡ cut_text cut.now) }
{
    let mut text = String::new(alloc);
    write!(text, "cut")?;
    put_cut(&mut text, cut)?;
    writeln!(text)?;
    Ok(bytes_of(text))
}

/// That a cut isn't closed, and the least closed cut that contains it.
pub(crate) fn open_text(alloc: Global, hull: &Cut) -> Told
    ensures { IfOk result (λ text. text ≡ open_text hull.now) }
{
    let mut text = String::new(alloc);
    write!(
        text,
        "rtr_gdb: not closed; the least closed cut that contains it is"
    )?;
    put_cut(&mut text, hull)?;
    writeln!(text)?;
    Ok(bytes_of(text))
}

/// Puts the counts of a cut, each behind a space.
fn put_cut(text: &mut String, cut: &Cut) -> Put
    ensures { OnOk result (string_bytes text.new ≡ string_bytes text.old ++ cut_counts cut.now) }
{
    let cores = cut.counts.len().min(cut.cores.into());
    put_counts(text, &cut.counts[..cores])
}

/// That the recording hasn't this core.
pub(crate) fn no_core(alloc: Global, core: u8) -> Told
    ensures { IfOk result (λ text. text ≡ no_core_text core) }
{
    let mut text = String::new(alloc);
    writeln!(text, "rtr_gdb: no core {core}")?;
    Ok(bytes_of(text))
}

/// That these are no counts of a cut.
pub(crate) fn no_counts(alloc: Global) -> Told
    ensures { IfOk result (λ text. text ≡ no_counts_text) }
{
    line(
        alloc,
        "rtr_gdb: no such counts: goto takes one for each core, at most its total",
    )
}
