//! The headers of a program's segments.
ghost use Rattle.std.specs.Prelude.{◌≡◌, ◌+◌, ◌≤◌, ◌↔◌, IsTrue, length};
ghost use Rattle.image_elf.specs.Faults.{is_within_file, is_within_memory};
ghost use Rattle.image_elf.specs.FlatImage.{range_byte};
ghost use Rattle.image_elf.specs.Headers.{header_at, is_loaded, range_end};

use crate::fields::word_at;

// p_type of a segment that is loaded.
const PT_LOAD: u32 = 1;

/// What a program header says of its segment: the type, where its bytes stand in the file, the address where
/// they are loaded, how many they are in the file, and how many in memory. Those past the file's are 0.
#[derive(Clone, Copy)]
pub(crate) struct ProgramHeader {
    kind: u32,
    offset: u32,
    vaddr: u32,
    filesz: u32,
    memsz: u32,
}

impl ProgramHeader {
    /// The program header at an address of the file.
    pub(crate) fn read(file: &[u8], address: usize) -> ProgramHeader
        requires { address + 32 ≤ length file.now }
        ensures { result ≡ header_at file.now address }
    {
        ProgramHeader {
            kind: word_at(file, address),
            offset: word_at(file, address + 4),
            vaddr: word_at(file, address + 8),
            filesz: word_at(file, address + 16),
            memsz: word_at(file, address + 20),
        }
    }

    /// Whether the segment is loaded.
    pub(crate) fn is_loaded(self) -> bool
        ensures { result ≡ is_loaded self }
    {
        self.kind == PT_LOAD
    }

    /// The address where the segment begins.
    pub(crate) fn start(self) -> usize
        ensures { result ≡ self.vaddr }
    {
        self.vaddr as usize
    }

    /// The address past the segment's last byte.
    pub(crate) fn end(self) -> usize
        ensures { result ≡ range_end self }
    {
        self.vaddr as usize + self.memsz as usize
    }

    /// Whether memory has no byte of the segment.
    pub(crate) fn is_empty(self) -> bool
        ensures { IsTrue result ↔ (self.memsz ≡ 0) }
    {
        self.memsz == 0
    }

    /// Whether the file has the segment's bytes, and no more than the memory is to have.
    pub(crate) fn is_within_file(self, file: &[u8]) -> bool
        ensures { result ≡ is_within_file file.now self }
    {
        self.filesz <= self.memsz && self.offset as usize + self.filesz as usize <= file.len()
    }

    /// Whether the segment is empty, or ends within a memory of so many words.
    pub(crate) fn is_within_memory(self, words: u32) -> bool
        ensures { result ≡ is_within_memory words self }
    {
        self.is_empty() || self.end() <= words as usize * 4
    }

    /// The byte that the segment has at an address.
    pub(crate) fn byte(self, file: &[u8], address: usize) -> u8
        requires start { self.vaddr ≤ address }
        requires within { self.offset + self.filesz ≤ length file.now }
        ensures { result ≡ range_byte file.now self address }
    {
        let place = address - self.start();
        if place < self.filesz as usize {
            file[self.offset as usize + place]
        } else {
            0
        }
    }
}
