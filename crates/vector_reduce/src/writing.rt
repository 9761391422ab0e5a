//! Writing thinned recordings.
ghost use Rattle.std.specs.Prelude.{◌≡◌, ◌≤◌, IfOk};
ghost use Rattle.rtr_types.specs.declared.TheConstants.{CORES_MAX};
ghost use Rattle.vector_reduce.specs.Spelling.{one_text, spelling};
ghost use Rattle.vector_reduce.specs.Validity.{IsThin};

use crate::thinned::{Shown, Thinned};
use log_codec::put_counts;
use part_lists::{Spelled, spell_with};
use std::alloc::{AllocError, Global};
use varint_core::put_u32;

impl Spelled for Shown {
    ghost text = { one_text };

    ghost fits = { λ one. one.cut.cores ≤ CORES_MAX };

    /// The number of an edge, and the counts of a cut.
    fn put(&self, out: &mut Vec<u8>) -> Result<(), AllocError> {
        put_u32(out, self.edge)?;
        put_counts(out, &self.cut.counts[..self.cut.cores as usize])
    }
}

/// The one spelling: that of the recording in version 2, and then what shows that its vectors are needed.
/// The only refusal is want of memory.
pub fn spell_thin(alloc: Global, value: &Thinned) -> Result<Vec<u8>, AllocError>
    requires { IsThin value.now }
    ensures { IfOk result (λ bytes. bytes.items ≡ spelling value.now) }
{
    spell_with(alloc, &value.recording, value.shown.as_slice())
}
