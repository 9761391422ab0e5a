//! Fields of a file.
ghost use Rattle.std.specs.Prelude.{◌≡◌, ◌+◌, ◌≤◌, length};
ghost use Rattle.image_elf.specs.Fields.{half_at, word_at};

use byteorder::{ByteOrder, LittleEndian};

/// The 16 bits at an address of the file.
#[tactic(auto, using(crate::proofs::FieldLemmas::field_of_rest), unfolding(crate::specs::Fields::half_at))]
pub(crate) fn half_at(file: &[u8], address: usize) -> u16
    requires { address + 2 ≤ length file.now }
    ensures { result ≡ half_at file.now address }
{
    LittleEndian::read_u16(&file[address..])
}

/// The 32 bits at an address of the file.
#[tactic(auto, using(crate::proofs::FieldLemmas::field_of_rest), unfolding(crate::specs::Fields::word_at))]
pub(crate) fn word_at(file: &[u8], address: usize) -> u32
    requires { address + 4 ≤ length file.now }
    ensures { result ≡ word_at file.now address }
{
    LittleEndian::read_u32(&file[address..])
}
