//! The header of an ELF file.
ghost use Rattle.std.specs.Prelude.{◌≡◌, ◌<◌, ◌^◌, IsTrue};
ghost use Rattle.image_elf.specs.Headers.{accepts_header, entry, has_table, header_count, is_elf, is_little_32};
ghost use Rattle.image_elf.specs.Headers.{is_program, table_start};

use crate::fields::{half_at, word_at};

// e_ident begins with 7f 45 4c 46, lowest byte first.
const MAGIC: u32 = 0x464C_457F;

// The bytes of a file header.
const FILE_HEADER_SIZE: usize = 52;

// e_type of an executable file whose addresses are fixed.
const ET_EXEC: u16 = 2;

// e_machine.
const EM_RISCV: u16 = 243;

// A count of program headers that stands elsewhere.
const PN_XNUM: u16 = 0xFFFF;

/// The bytes of a program header.
pub(crate) const PROGRAM_HEADER_SIZE: usize = 32;

/// Whether the file has a whole file header that begins as an ELF file's.
pub(crate) fn is_elf(file: &[u8]) -> bool
    ensures { result ≡ is_elf file.now }
{
    file.len() >= FILE_HEADER_SIZE && word_at(file, 0) == MAGIC
}

/// Whether the file is a program for RISC-V with 32-bit little-endian fields whose table of program headers
/// can be read.
pub(crate) fn accepts_header(file: &[u8]) -> bool
    requires { IsTrue (is_elf file.now) }
    ensures { result ≡ accepts_header file.now }
{
    is_little_32(file) && is_program(file) && has_table(file)
}

/// Where the program begins.
pub(crate) fn entry(file: &[u8]) -> u32
    requires { IsTrue (is_elf file.now) }
    ensures { result ≡ entry file.now }
{
    word_at(file, 24)
}

/// Where the table of program headers begins in the file.
pub(crate) fn table_start(file: &[u8]) -> usize
    requires { IsTrue (is_elf file.now) }
    ensures value { result ≡ table_start file.now }
    ensures below { result < 2 ^ 32 }
{
    word_at(file, 28) as usize
}

/// How many program headers the table has.
pub(crate) fn header_count(file: &[u8]) -> u16
    requires { IsTrue (is_elf file.now) }
    ensures { result ≡ header_count file.now }
{
    half_at(file, 44)
}

// Class, byte order and version are those of a little-endian ELF32 file.
fn is_little_32(file: &[u8]) -> bool
    requires { IsTrue (is_elf file.now) }
    ensures { result ≡ is_little_32 file.now }
{
    file[4] == 1 && file[5] == 1 && file[6] == 1
}

// The file is an executable program for RISC-V.
fn is_program(file: &[u8]) -> bool
    requires { IsTrue (is_elf file.now) }
    ensures { result ≡ is_program file.now }
{
    half_at(file, 16) == ET_EXEC && half_at(file, 18) == EM_RISCV && word_at(file, 20) == 1
}

// The table of program headers is empty, or has its size and ends within the file.
fn has_table(file: &[u8]) -> bool
    requires { IsTrue (is_elf file.now) }
    ensures { result ≡ has_table file.now }
{
    let count = header_count(file);
    let size = half_at(file, 42) as usize;
    let end = table_start(file) + PROGRAM_HEADER_SIZE * count as usize;
    count != PN_XNUM && (count == 0 || size == PROGRAM_HEADER_SIZE && end <= file.len())
}
