//! The bytes of a core file.
ghost use Rattle.std.specs.Prelude.{◌≡◌, ◌<◌, ◌≤◌, ◌++◌, IfOk, OnOk, length};
ghost use Rattle.rtr_types.specs.declared.TheConstants.{CORES_MAX};
ghost use Rattle.rtr_types.specs.declared.params.TheConstants.{WORDS_MAX};
ghost use Rattle.core_file.specs.CoreFiles.{core_bytes_of, header, memory_segment, note_of, notes_of, notes_segment};
ghost use Rattle.core_file.specs.CoreFiles.{spelled};

use rtr_types::Items;
use rv_core::{Core, Outcome};
use std::alloc::{AllocError, Global};

/// How many bytes a core's note has.
const NOTE_BYTES: usize = 224;

/// How many bytes stand before the notes.
const HEADERS: usize = 116;

/// The cores and the memory of an outcome as an ELF core file of 32 bits for RISC-V, as a debugger opens it: core C is
/// thread C + 1, with its pc and registers, each stopped by a trap, and the memory stands at address 0. `first` is the
/// core that the debugger looks at first.
pub fn core_file(alloc: Global, outcome: &Outcome, first: u8) -> Result<Items<u8>, AllocError>
    requires first { first < length outcome.now.cores }
    requires cores { length outcome.now.cores ≤ CORES_MAX }
    requires words { length outcome.now.words ≤ WORDS_MAX }
    ensures { IfOk result (λ file. file ≡ core_bytes_of first outcome.now) }
{
    let cores = outcome.cores.as_slice();
    let words = outcome.words.as_slice();
    let first = first as usize;
    let size = HEADERS + cores.len() * NOTE_BYTES + words.len() * 4;
    let mut out = Vec::with_capacity(alloc, size)?;
    put_headers(&mut out, cores.len() as u32, words.len() as u32)?;
    put_note(&mut out, &cores[first])?;
    put_notes(&mut out, &cores[..first])?;
    put_notes(&mut out, &cores[first + 1..])?;
    put_words(&mut out, words)?;
    Ok(Items::from_vec(out))
}

/// Puts the header and the two program headers.
fn put_headers(out: &mut Vec<u8>, cores: u32, words: u32) -> Result<(), AllocError>
    requires cores { cores ≤ CORES_MAX }
    requires words { words ≤ WORDS_MAX }
    ensures { OnOk result (out.new.items
        ≡ out.old.items ++ spelled (header ++ (notes_segment cores ++ memory_segment cores words))) }
{
    let notes = cores * NOTE_BYTES as u32;
    let memory = words * 4;
    put_words(
        out,
        &[
            0x464c_457f,
            0x1_0101,
            0,
            0,
            0xf3_0004,
            1,
            0,
            52,
            0,
            0,
            0x20_0034,
            2,
            0,
        ],
    )?;
    put_words(out, &[4, 116, 0, 0, notes, 0, 4, 4])?;
    put_words(out, &[1, 116 + notes, 0, 0, memory, memory, 7, 4])
}

/// Puts the notes of these cores.
fn put_notes(out: &mut Vec<u8>, cores: &[Core]) -> Result<(), AllocError>
    ensures { OnOk result (out.new.items ≡ out.old.items ++ spelled (notes_of cores.now)) }
{
    for core in cores {
        put_note(out, core)?;
    }
    Ok(())
}

/// Puts the note of one core.
fn put_note(out: &mut Vec<u8>, core: &Core) -> Result<(), AllocError>
    ensures { OnOk result (out.new.items ≡ out.old.items ++ spelled (note_of core.now)) }
{
    let thread = core.id as u32 + 1;
    put_words(out, &[5, 204, 1, 0x4552_4f43, 0, 5, 0, 0, 5, 0, 0, thread])?;
    put_words(out, &[0; 11])?;
    put_words(out, &[core.pc])?;
    put_words(out, &core.registers[1..])?;
    put_words(out, &[0])
}

/// Puts the words, each with its lowest byte first.
fn put_words(out: &mut Vec<u8>, words: &[u32]) -> Result<(), AllocError>
    ensures { OnOk result (out.new.items ≡ out.old.items ++ spelled words.now) }
{
    for word in words {
        out.extend_from_slice(&word.to_le_bytes())?;
    }
    Ok(())
}
