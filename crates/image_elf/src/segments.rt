//! The segments of a program, loaded one after the other.
ghost use Rattle.std.specs.Prelude.{◌≡◌, ◌⊎◌, ◌+◌, ◌<◌, IsTrue, MatchResult, Some, None};
ghost use Rattle.image_elf.specs.declared.elf_fault.ElfFault.TheVariants.{OutOfMemory};
ghost use Rattle.image_elf.specs.Cells.{HoldFirst};
ghost use Rattle.image_elf.specs.Faults.{header_fault, first_header_fault};
ghost use Rattle.image_elf.specs.Headers.{has_table, header, header_count, is_elf};

use crate::cells::Cells;
use crate::elf_fault::ElfFault;
use crate::file_header::{PROGRAM_HEADER_SIZE, header_count, table_start};
use crate::program_header::ProgramHeader;
use std::alloc::Global;

/// The memory with every segment loaded, or the fault of the first header that has one.
pub(crate) fn load_segments(alloc: Global, file: &[u8], words: u32) -> Result<Cells, ElfFault>
    requires elf { IsTrue (is_elf file.now) }
    requires table { IsTrue (has_table file.now) }
    ensures { MatchResult result
        (λ cells. HoldFirst file.now (header_count file.now) cells
        × (first_header_fault file.now words (header_count file.now) ≡ None))
        (λ fault. (fault ≡ OutOfMemory) ⊎ (first_header_fault file.now words (header_count file.now) ≡ Some fault)) }
{
    let mut cells = Cells::new(alloc);
    for index in 0..header_count(file) as u32 {
        load_segment(&mut cells, file, words, index)?;
    }
    Ok(cells)
}

/// Loads the segment of the header of this number, where it has one and no fault. The earlier ones are loaded.
fn load_segment(cells: &mut Cells, file: &[u8], words: u32, index: u32) -> Result<(), ElfFault>
    requires elf { IsTrue (is_elf file.now) }
    requires table { IsTrue (has_table file.now) }
    requires there { index < header_count file.now }
    requires earlier { HoldFirst file.now index cells.old }
    ensures { MatchResult result
        (λ _. HoldFirst file.now (index + 1) cells.new × (header_fault file.now words index ≡ None))
        (λ fault. (fault ≡ OutOfMemory) ⊎ (header_fault file.now words index ≡ Some fault)) }
{
    let header = nth_header(file, index);
    if !header.is_loaded() {
        return Ok(());
    }
    if !header.is_within_file(file) {
        return Err(ElfFault::Segment { index });
    }
    if !header.is_within_memory(words) {
        return Err(ElfFault::Outside { index });
    }
    if !cells.is_free(header.start(), header.end()) {
        return Err(ElfFault::Overlap { index });
    }
    if !header.is_empty() {
        cells.load(file, header)?;
    }
    Ok(())
}

/// The header of this number in the table.
#[tactic(auto, unfolding(crate::specs::Headers::header))]
fn nth_header(file: &[u8], index: u32) -> ProgramHeader
    requires elf { IsTrue (is_elf file.now) }
    requires table { IsTrue (has_table file.now) }
    requires there { index < header_count file.now }
    ensures { result ≡ header file.now index }
{
    ProgramHeader::read(
        file,
        table_start(file) + PROGRAM_HEADER_SIZE * index as usize,
    )
}
