//! Writing certificates.
ghost use Rattle.std.specs.Prelude.{◌≡◌, ◌<◌, ◌^◌, length, IfOk};
ghost use Rattle.certificate_codec.specs.Spelling.{entries_text, spelling};
ghost use Rattle.certificate_codec.specs.Validity.{IsCertificate};

use crate::certificate::Certificate;
use crate::core_entries::CoreEntries;
use log_codec::put_counts;
use part_lists::{Spelled, spell_with};
use std::alloc::{AllocError, Global};
use varint_core::put_u32;

impl Spelled for CoreEntries {
    ghost text = { entries_text };

    ghost fits = { λ entries. length entries < 2 ^ 32 };

    /// How many entries, and these.
    fn put(&self, out: &mut Vec<u8>) -> Result<(), AllocError> {
        put_u32(out, self.len() as u32)?;
        for place in 0..self.len() {
            put_counts(out, self.entry(place))?;
        }
        Ok(())
    }
}

/// The spelling of a certificate: that of its recording in the newest version, and then the clocks.
pub fn spell_certificate(alloc: Global, value: &Certificate) -> Result<Vec<u8>, AllocError>
    requires { IsCertificate value.now }
    ensures { IfOk result (λ bytes. bytes.items ≡ spelling value.now) }
{
    spell_with(alloc, &value.recording, value.clocks.as_slice())
}
