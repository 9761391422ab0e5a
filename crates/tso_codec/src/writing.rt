//! Writing the one spelling.
ghost use Rattle.std.specs.Prelude.{◌≡◌, ◌++◌, ◌≤◌, length, OnOk, IfOk};
ghost use Rattle.rtr_types.specs.Turns.{StandInTurn, count_up};
ghost use Rattle.tso_codec.specs.Spelling.{values_text, all_values_text, tso_spelling};
ghost use Rattle.tso_codec.specs.Validity.{AreValues, AreValuesOf, IsTso};

use crate::reading::tso_magic;
use crate::recording::TsoRecording;
use log_codec::{put_sizes, put_targets, put_totals};
use rtr_types::Items;
use std::alloc::{AllocError, Global};
use varint_core::put_u32;

/// The logged loads of a core: how many, and how far each count rises, with the word.
fn put_values(out: &mut Vec<u8>, total: u32, values: &[(u32, u32)]) -> Result<(), AllocError>
    requires { AreValues total values.now }
    ensures { OnOk result (out.new.items ≡ out.old.items ++ values_text values.now) }
{
    put_u32(out, values.len() as u32)?;
    let mut last = 0;
    for value in values {
        put_u32(out, value.0 - last)?;
        put_u32(out, value.1)?;
        last = value.0;
    }
    Ok(())
}

/// The logged loads of each core.
fn put_all_values(
    out: &mut Vec<u8>,
    totals: &[u32],
    values: &[Items<(u32, u32)>],
) -> Result<(), AllocError>
    requires cores { length values.now ≤ length totals.now }
    requires values { StandInTurn (AreValuesOf totals.now) count_up 0 values.now }
    ensures { OnOk result (out.new.items ≡ out.old.items ++ all_values_text values.now) }
{
    for core in 0..values.len() {
        put_values(out, totals[core], values[core].as_slice())?;
    }
    Ok(())
}

/// The one spelling of the recording. It is refused for want of memory alone.
#[tactic(auto, unfolding(crate::specs::Spelling::tso_spelling))]
pub fn tso_spell(alloc: Global, value: &TsoRecording) -> Result<Vec<u8>, AllocError>
    requires { IsTso value.now }
    ensures { IfOk result (λ bytes. bytes.items ≡ tso_spelling value.now) }
{
    let mut out = Vec::new(alloc);
    out.extend_from_slice(&tso_magic())?;
    put_sizes(&mut out, &value.params, value.image.len() as u32)?;
    out.extend_from_slice(value.image.as_slice())?;
    put_totals(&mut out, value.totals.as_slice())?;
    put_targets(&mut out, value.reduced.as_slice(), value.params.cores)?;
    put_all_values(&mut out, value.totals.as_slice(), value.values.as_slice())?;
    Ok(out)
}
