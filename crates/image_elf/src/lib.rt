//! ELF32 files as flat images. A flat image is the bytes from address 0 on that the segments of a linked RISC-V program
//! make up. The standards are the Tool Interface Standard's ELF specification, version 1.2, and the RISC-V ELF psABI.
//!
//! What is loaded is kept by address, a byte or none. So the time is that of the table and of the image, however many
//! ranges overlap. A segment's place in the file is tested even if it is empty. An empty one may stand anywhere,
//! overlaps nothing, and counts neither for the length nor for the entry.
//!
//! Proved: `flatten` gives the flat image of an ELF32 file, byte by byte, within the memory. Each fault comes exactly
//! where it is the file's first, and first is first in the table (`fault_laws`).
#![tactic(auto)]

mod cells;
mod elf_fault;
mod fields;
mod file_header;
mod flattening;
mod laws;
mod program_header;
mod segments;

pub use elf_fault::ElfFault;
pub use flattening::flatten;
pub use laws::{fault_laws, image_law};
