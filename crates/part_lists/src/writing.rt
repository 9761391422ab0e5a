//! Writing items one after the other.
ghost use Rattle.std.specs.Prelude.{◌≡◌, ◌++◌, ◌<◌, ℕ, List, IfOk, OnOk, length, slice_index_or};
ghost use Rattle.std.specs.List.{flat_map};
ghost use Rattle.log_codec.specs.Spelling.{spelling};
ghost use Rattle.race_log.specs.Validity.{Valid};

use log_codec::spell;
use race_log::Recording;
use std::alloc::{AllocError, Global};

/// An item of a list that is written.
pub trait Spelled {
    /// Its spelling.
    ghost text: { Self → List ℕ };

    /// It has that spelling.
    ghost fits: { Self → Type 0 };

    /// Puts its spelling at the end.
    fn put(&self, out: &mut Vec<u8>) -> Result<(), AllocError>
        requires { fits self.now }
        ensures { OnOk result (out.new.items ≡ out.old.items ++ text self.now) };
}

/// Puts the spellings of the items at the end.
fn put_items<T: Spelled>(out: &mut Vec<u8>, items: &[T]) -> Result<(), AllocError>
    requires { (k : ℕ) (d : T) → k < length items.now → T.fits (slice_index_or items.now k d) }
    ensures { OnOk result (out.new.items ≡ out.old.items ++ flat_map T.text items.now) }
{
    for item in items {
        item.put(out)?;
    }
    Ok(())
}

/// The spelling of a recording in the newest version, and then those of the items.
pub fn spell_with<T: Spelled>(
    alloc: Global,
    recording: &Recording,
    items: &[T],
) -> Result<Vec<u8>, AllocError>
    requires recording { Valid recording.now }
    requires items { (k : ℕ) (d : T) → k < length items.now → T.fits (slice_index_or items.now k d) }
    ensures { IfOk result (λ bytes. bytes.items ≡ spelling recording.now ++ flat_map T.text items.now) }
{
    let mut out = spell(alloc, recording)?;
    put_items(&mut out, items)?;
    Ok(out)
}
