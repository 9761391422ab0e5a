//! The text of the state at a cut of a recording.
ghost use Rattle.std.specs.Prelude.{◌≡◌, ◌++◌, IfOk, OnOk, string_bytes};
ghost use Rattle.state_text.specs.Cuts.{cut_line, cut_state_lines};
ghost use Rattle.state_text.specs.Exits.{counts_text};
ghost use Rattle.state_text.specs.States.{IsOutcomeOf};

use crate::states::put_state;
use image_mem::Image;
use rtr_types::Cut;
use rv_core::Outcome;
use std::alloc::{AllocError, Global};

/// The state at a cut of a recording, as text: a line `cut` with the number of instructions of each core that the cut
/// holds, core 0 first, and then the lines of `state_text`. The only refusal is want of memory.
pub fn cut_state_text(
    alloc: Global,
    cut: &Cut,
    outcome: &Outcome,
    image: &Image,
    loads: bool,
) -> Result<Vec<u8>, AllocError>
    requires { IsOutcomeOf image.now outcome.now }
    ensures { IfOk result (λ text. text.items ≡ cut_state_lines cut.now outcome.now image.now loads) }
{
    let mut text = String::new(alloc);
    put_cut(&mut text, cut)?;
    put_state(&mut text, outcome, image, loads)?;
    Ok(text.into_bytes())
}

// Puts the line of a cut.
fn put_cut(text: &mut String, cut: &Cut) -> Result<(), AllocError>
    ensures { OnOk result (string_bytes text.new ≡ string_bytes text.old ++ cut_line cut.now) }
{
    write!(text, "cut")?;
    put_counts(text, cut)?;
    writeln!(text)
}

// Puts the counts of a cut, each after a space.
fn put_counts(text: &mut String, cut: &Cut) -> Result<(), AllocError>
    ensures { OnOk result (string_bytes text.new ≡ string_bytes text.old ++ counts_text cut.now) }
{
    let cores = cut.counts.len().min(cut.cores.into());
    for count in &cut.counts[..cores] {
        write!(text, " {count}")?;
    }
    Ok(())
}
