//! From a file to its flat image.
ghost use Rattle.std.specs.Prelude.{◌≡◌, ◌⊎◌, ◌≤◌, ◌*◌, pos, length, IsTrue, MatchResult, IfOk, Some, None};
ghost use Rattle.rtr_types.specs.Sizes.{words_max};
ghost use Rattle.image_elf.specs.declared.elf_fault.ElfFault.TheVariants.{OutOfMemory};
ghost use Rattle.rv_decode.specs.Ranges.{Fits};
ghost use Rattle.rv_decode.specs.Words.{encoding};
ghost use Rattle.rv_decode.specs.declared.op.Op.TheVariants.{Jal};
ghost use Rattle.image_elf.specs.Cases.{IsFlatImage};
ghost use Rattle.image_elf.specs.Cells.{HoldFirst};
ghost use Rattle.image_elf.specs.Faults.{accepts_entry, elf_fault};
ghost use Rattle.image_elf.specs.FlatImage.{flat_image, jump_length};
ghost use Rattle.image_elf.specs.Headers.{entry, header_count, is_elf};

use crate::cells::Cells;
use crate::elf_fault::ElfFault;
use crate::file_header::{accepts_header, entry, is_elf};
use crate::segments::load_segments;
use rv_decode::{Op, encode};
use std::alloc::{AllocError, Global};

// The bytes of the jump to the entry.
const JUMP_SIZE: usize = 4;

/// The flat image of an ELF32 file for a memory of so many words: the segments' bytes at their addresses, and
/// at address 0 a jump to the entry where that isn't 0.
pub fn flatten(alloc: Global, file: &[u8], words: u32) -> Result<Vec<u8>, ElfFault>
    requires { words ≤ words_max }
    // Which bytes the image has, and where it ends.
    ensures image { IfOk result (λ image. IsFlatImage file.now image.items) }
    ensures room { IfOk result (λ image. length image.items ≤ 4 * words) }
    // Ok comes exactly where the file has no fault, and each fault exactly where it is the file's first; want of
    // memory may take the place of either.
    ensures answer { MatchResult result
        (λ image. (elf_fault file.now words ≡ None) × (image.items ≡ flat_image file.now))
        (λ fault. (fault ≡ OutOfMemory) ⊎ (elf_fault file.now words ≡ Some fault)) }
{
    if !is_elf(file) {
        return Err(ElfFault::NotElf);
    }
    if !accepts_header(file) {
        return Err(ElfFault::Header);
    }
    let cells = load_segments(alloc, file, words)?;
    if !accepts_entry(file, words, &cells) {
        return Err(ElfFault::Entry);
    }
    Ok(image_of(alloc, file, &cells)?)
}

/// Whether the cores can begin at the entry, with every segment loaded.
fn accepts_entry(file: &[u8], words: u32, cells: &Cells) -> bool
    requires elf { IsTrue (is_elf file.now) }
    requires loaded { HoldFirst file.now (header_count file.now) cells.now }
    ensures { result ≡ accepts_entry file.now words }
{
    let entry = entry(file);
    let within = (entry as usize) < words as usize * 4;
    entry % 4 == 0 && within && (entry == 0 || cells.is_free(0, JUMP_SIZE))
}

/// The image of the segments in these cells, with the jump to the entry where that isn't 0.
fn image_of(alloc: Global, file: &[u8], cells: &Cells) -> Result<Vec<u8>, AllocError>
    requires elf { IsTrue (is_elf file.now) }
    requires loaded { HoldFirst file.now (header_count file.now) cells.now }
    requires near { Fits (Jal 0 (pos (entry file.now))) }
    ensures { IfOk result (λ image. image.items ≡ flat_image file.now) }
{
    let jump = jump_to(entry(file)).to_le_bytes();
    let jump_length = jump_length(file);
    let length = jump_length.max(cells.len());
    let mut image = Vec::with_capacity(alloc, length)?;
    for address in 0..length {
        let byte = if address < jump_length {
            jump[address]
        } else {
            cells.get(address).unwrap_or(0)
        };
        image.push(byte)?;
    }
    Ok(image)
}

/// How many bytes the jump takes: none where the entry is 0, since each core starts there.
fn jump_length(file: &[u8]) -> usize
    requires { IsTrue (is_elf file.now) }
    ensures { result ≡ jump_length file.now }
{
    if entry(file) == 0 { 0 } else { JUMP_SIZE }
}

/// The word that jumps from address 0 to the entry, and keeps no return address.
fn jump_to(entry: u32) -> u32
    requires { Fits (Jal 0 (pos entry)) }
    ensures { result ≡ encoding (Jal 0 (pos entry)) }
{
    encode(&Op::Jal {
        rd: 0,
        offset: entry as i32,
    })
}
