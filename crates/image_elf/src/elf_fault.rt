//! Why a file has no flat image.
ghost use Rattle.std.specs.Prelude.{◌≡◌};
ghost use Rattle.image_elf.specs.declared.elf_fault.ElfFault.TheVariants.{OutOfMemory};

use std::alloc::{AllocError, AllocFailed};

/// Why a file has no flat image for a memory, in the order in which the faults are looked for. `index` is the
/// number of a program header in the table, from 0, headers of every type counted.
#[derive(Clone, Copy, Debug, PartialEq, Eq)]
pub enum ElfFault {
    /// The file has fewer than 52 bytes, or doesn't begin with 7f 45 4c 46.
    NotElf,
    /// The file isn't a little-endian ELF32 program of version 1 for RISC-V at fixed addresses, or its table of
    /// program headers has 65,535 of them or more, or headers that aren't of 32 bytes, or ends past the file.
    Header,
    /// The segment has more bytes in the file than in memory, or its bytes end past the file.
    Segment { index: u32 },
    /// The segment isn't empty, and ends past the memory.
    Outside { index: u32 },
    /// The segment has a byte at an address where an earlier one has one.
    Overlap { index: u32 },
    /// The entry is no multiple of 4 or lies past the memory, or it isn't 0 and a segment has one of the bytes
    /// from 0 to 3, where the jump to the entry stands.
    Entry,
    /// Memory ran out.
    OutOfMemory,
}

impl<T: Drop> From<AllocFailed<T>> for ElfFault {
    ghost from_gives = { λ _ e. e ≡ OutOfMemory };

    fn from(_error: AllocFailed<T>) -> Self {
        ElfFault::OutOfMemory
    }
}

impl From<AllocError> for ElfFault {
    ghost from_gives = { λ _ e. e ≡ OutOfMemory };

    fn from(_error: AllocError) -> Self {
        ElfFault::OutOfMemory
    }
}
