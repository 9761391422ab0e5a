//! Files from outside, byte by byte, and each fault once.
use byteorder::{ByteOrder, LittleEndian};
use image_elf::{ElfFault, flatten};
use std::process::Abort;
use std::test::Fail;

// A program of two instructions at address 16, where it begins.
static PROGRAM: [u8; 92] = [
    0x7f, 0x45, 0x4c, 0x46, 1, 1, 1, 0, 0, 0, 0, 0, 0, 0, 0, 0, // e_ident
    2, 0, 0xf3, 0, 1, 0, 0, 0, 0x10, 0, 0, 0, 0x34, 0, 0, 0, // e_type to e_phoff
    0, 0, 0, 0, 0, 0, 0, 0, 0x34, 0, 0x20, 0, 1, 0, 0, 0, 0, 0, 0, 0, // e_shoff to e_shstrndx
    1, 0, 0, 0, 0x54, 0, 0, 0, 0x10, 0, 0, 0, 0x10, 0, 0, 0, // p_type to p_paddr
    8, 0, 0, 0, 8, 0, 0, 0, 5, 0, 0, 0, 4, 0, 0, 0, // p_filesz to p_align
    0x93, 0x02, 0x10, 0x00, 0x73, 0, 0, 0,
];

// A program whose table of two headers ends the file: six bytes of two in the file at address 16, and four
// zeros from address 24.
static TABLE_LAST: [u8; 124] = [
    0x7f, 0x45, 0x4c, 0x46, 1, 1, 1, 0, 0, 0, 0, 0, 0, 0, 0, 0, // e_ident
    2, 0, 0xf3, 0, 1, 0, 0, 0, 0x10, 0, 0, 0, 0x3c, 0, 0, 0, // e_type to e_phoff
    0, 0, 0, 0, 0, 0, 0, 0, 0x34, 0, 0x20, 0, 2, 0, 0, 0, 0, 0, 0, 0, // e_shoff to e_shstrndx
    1, 2, 3, 4, 5, 6, 7, 8, // what is loaded
    1, 0, 0, 0, 0x34, 0, 0, 0, 0x10, 0, 0, 0, 0x10, 0, 0, 0, // p_type to p_paddr
    6, 0, 0, 0, 8, 0, 0, 0, 5, 0, 0, 0, 4, 0, 0, 0, // p_filesz to p_align
    1, 0, 0, 0, 0x3c, 0, 0, 0, 0x18, 0, 0, 0, 0x18, 0, 0, 0, // p_type to p_paddr
    0, 0, 0, 0, 4, 0, 0, 0, 6, 0, 0, 0, 4, 0, 0, 0, // p_filesz to p_align
];

#[test]
fn a_program_has_its_flat_image(rt: HostRuntime) -> Result<(), Fail> {
    let image = flatten(rt.alloc(), &PROGRAM, 8)?;
    let want = [
        0x6f, 0, 0, 1, 0, 0, 0, 0, 0, 0, 0, 0, 0, 0, 0, 0, 0x93, 0x02, 0x10, 0x00, 0x73, 0, 0, 0,
    ];
    assert!(rt; image.as_slice() == want.as_slice());
    assert!(rt; flatten(rt.alloc(), &PROGRAM, 4).err() == Some(ElfFault::Outside { index: 0 }));
    assert!(rt; flatten(rt.alloc(), &PROGRAM[..51], 8).err() == Some(ElfFault::NotElf));
    let image = flatten(rt.alloc(), &TABLE_LAST, 8)?;
    let want = [
        0x6f, 0, 0, 1, 0, 0, 0, 0, 0, 0, 0, 0, 0, 0, 0, 0, 1, 2, 3, 4, 5, 6, 0, 0, 0, 0, 0, 0,
    ];
    assert!(rt; image.as_slice() == want.as_slice());
    Ok(())
}

// What GNU ld 2.40 made of this program, by
//     riscv64-unknown-elf-as -march=rv32i count.s -o count.o
//     riscv64-unknown-elf-ld -m elf32lriscv -N -s -Ttext=10 -Tdata=40 count.o -o count.elf
//
//          .globl  _start
//  _start: lw      x5, counter
//          addi    x5, x5, 1
//          sw      x5, counter, x6
//          ecall
//          .data
//          .word   7
//          .bss
//  counter: .zero  8
//
// The first of its two headers is of the type for RISC-V attributes.
static LINKED: [u8; 480] = [
    0x7f, 0x45, 0x4c, 0x46, 1, 1, 1, 0, 0, 0, 0, 0, 0, 0, 0, 0, 2, 0, 0xf3, 0, 1, 0, 0, 0, 0x10, 0,
    0, 0, 0x34, 0, 0, 0, 0xf0, 0, 0, 0, 0, 0, 0, 0, 0x34, 0, 0x20, 0, 2, 0, 0x28, 0, 6, 0, 5, 0, 3,
    0, 0, 0x70, 0xa8, 0, 0, 0, 0, 0, 0, 0, 0, 0, 0, 0, 0x1a, 0, 0, 0, 0, 0, 0, 0, 4, 0, 0, 0, 1, 0,
    0, 0, 1, 0, 0, 0, 0x74, 0, 0, 0, 0x10, 0, 0, 0, 0x10, 0, 0, 0, 0x34, 0, 0, 0, 0x3c, 0, 0, 0, 7,
    0, 0, 0, 4, 0, 0, 0, 0x83, 0x22, 0x40, 4, 0x93, 0x82, 0x12, 0, 0x23, 0x22, 0x50, 4, 0x73, 0, 0,
    0, 0, 0, 0, 0, 0, 0, 0, 0, 0, 0, 0, 0, 0, 0, 0, 0, 0, 0, 0, 0, 0, 0, 0, 0, 0, 0, 0, 0, 0, 0, 0,
    0, 7, 0, 0, 0, 0x41, 0x19, 0, 0, 0, 0x72, 0x69, 0x73, 0x63, 0x76, 0, 1, 0x0f, 0, 0, 0, 5, 0x72,
    0x76, 0x33, 0x32, 0x69, 0x32, 0x70, 0x31, 0, 0, 0x2e, 0x73, 0x68, 0x73, 0x74, 0x72, 0x74, 0x61,
    0x62, 0, 0x2e, 0x74, 0x65, 0x78, 0x74, 0, 0x2e, 0x64, 0x61, 0x74, 0x61, 0, 0x2e, 0x62, 0x73,
    0x73, 0, 0x2e, 0x72, 0x69, 0x73, 0x63, 0x76, 0x2e, 0x61, 0x74, 0x74, 0x72, 0x69, 0x62, 0x75,
    0x74, 0x65, 0x73, 0, 0, 0, 0, 0, 0, 0, 0, 0, 0, 0, 0, 0, 0, 0, 0, 0, 0, 0, 0, 0, 0, 0, 0, 0, 0,
    0, 0, 0, 0, 0, 0, 0, 0, 0, 0, 0, 0, 0, 0, 0, 0x0b, 0, 0, 0, 1, 0, 0, 0, 7, 0, 0, 0, 0x10, 0, 0,
    0, 0x74, 0, 0, 0, 0x10, 0, 0, 0, 0, 0, 0, 0, 0, 0, 0, 0, 4, 0, 0, 0, 0, 0, 0, 0, 0x11, 0, 0, 0,
    1, 0, 0, 0, 3, 0, 0, 0, 0x40, 0, 0, 0, 0xa4, 0, 0, 0, 4, 0, 0, 0, 0, 0, 0, 0, 0, 0, 0, 0, 1, 0,
    0, 0, 0, 0, 0, 0, 0x17, 0, 0, 0, 8, 0, 0, 0, 3, 0, 0, 0, 0x44, 0, 0, 0, 0xa8, 0, 0, 0, 8, 0, 0,
    0, 0, 0, 0, 0, 0, 0, 0, 0, 1, 0, 0, 0, 0, 0, 0, 0, 0x1c, 0, 0, 0, 3, 0, 0, 0x70, 0, 0, 0, 0, 0,
    0, 0, 0, 0xa8, 0, 0, 0, 0x1a, 0, 0, 0, 0, 0, 0, 0, 0, 0, 0, 0, 1, 0, 0, 0, 0, 0, 0, 0, 1, 0, 0,
    0, 3, 0, 0, 0, 0, 0, 0, 0, 0, 0, 0, 0, 0xc2, 0, 0, 0, 0x2e, 0, 0, 0, 0, 0, 0, 0, 0, 0, 0, 0, 1,
    0, 0, 0, 0, 0, 0, 0,
];

// What objcopy's -O binary makes of it: the bytes from address 16 on. The eight bytes of .bss come after.
static COPIED: [u8; 52] = [
    0x83, 0x22, 0x40, 4, 0x93, 0x82, 0x12, 0, 0x23, 0x22, 0x50, 4, 0x73, 0, 0, 0, 0, 0, 0, 0, 0, 0,
    0, 0, 0, 0, 0, 0, 0, 0, 0, 0, 0, 0, 0, 0, 0, 0, 0, 0, 0, 0, 0, 0, 0, 0, 0, 0, 7, 0, 0, 0,
];

#[test]
fn a_linked_program_has_the_bytes_that_objcopy_gives(rt: HostRuntime) -> Result<(), Fail> {
    let image = flatten(rt.alloc(), &LINKED, 32)?;
    is_copied(&rt, image.as_slice());
    Ok(())
}

// The image of `LINKED`: the jump to it, what is copied, and zeros.
fn is_copied(rt: &impl Abort, image: &[u8]) {
    assert!(rt; image.len() == 76);
    let start = [0x6f, 0, 0, 1, 0, 0, 0, 0, 0, 0, 0, 0, 0, 0, 0, 0];
    assert!(rt; &image[..16] == start.as_slice());
    assert!(rt; &image[16..68] == COPIED.as_slice());
    assert!(rt; &image[68..] == [0; 8].as_slice());
}

// Two words of `TABLE_LAST` written over, and the length of the image for a memory of 8 words, or the fault.
struct Case {
    what: &'static str,
    first_at: u8,
    first: u32,
    second_at: u8,
    second: u32,
    want: Result<usize, ElfFault>,
}

static CASES: [Case; 45] = [
    Case {
        what: "no magic",
        first_at: 0,
        first: 0x464c_457e,
        second_at: 48,
        second: 0,
        want: Err(ElfFault::NotElf),
    },
    Case {
        what: "class 64",
        first_at: 4,
        first: 0x0001_0102,
        second_at: 48,
        second: 0,
        want: Err(ElfFault::Header),
    },
    Case {
        what: "big endian",
        first_at: 4,
        first: 0x0001_0201,
        second_at: 48,
        second: 0,
        want: Err(ElfFault::Header),
    },
    Case {
        what: "an old version",
        first_at: 4,
        first: 0x0000_0101,
        second_at: 48,
        second: 0,
        want: Err(ElfFault::Header),
    },
    Case {
        what: "position-independent",
        first_at: 16,
        first: 0x00f3_0003,
        second_at: 48,
        second: 0,
        want: Err(ElfFault::Header),
    },
    Case {
        what: "another machine",
        first_at: 16,
        first: 0x00f4_0002,
        second_at: 48,
        second: 0,
        want: Err(ElfFault::Header),
    },
    Case {
        what: "version 2",
        first_at: 20,
        first: 2,
        second_at: 48,
        second: 0,
        want: Err(ElfFault::Header),
    },
    Case {
        what: "the count elsewhere",
        first_at: 44,
        first: 0x0000_ffff,
        second_at: 48,
        second: 0,
        want: Err(ElfFault::Header),
    },
    Case {
        what: "headers of 40 bytes",
        first_at: 40,
        first: 0x0028_0034,
        second_at: 48,
        second: 0,
        want: Err(ElfFault::Header),
    },
    Case {
        what: "one header too many",
        first_at: 44,
        first: 3,
        second_at: 48,
        second: 0,
        want: Err(ElfFault::Header),
    },
    Case {
        what: "the table a byte too far",
        first_at: 28,
        first: 61,
        second_at: 48,
        second: 0,
        want: Err(ElfFault::Header),
    },
    Case {
        what: "a table far past the file",
        first_at: 28,
        first: 0xffff_fff0,
        second_at: 48,
        second: 0,
        want: Err(ElfFault::Header),
    },
    Case {
        what: "no header, wherever the table is",
        first_at: 44,
        first: 0,
        second_at: 28,
        second: 0xffff_ffff,
        want: Ok(4),
    },
    Case {
        what: "sections are ignored",
        first_at: 32,
        first: 0xffff_ffff,
        second_at: 48,
        second: 0xffff_ffff,
        want: Ok(28),
    },
    Case {
        what: "more in the file than in memory",
        first_at: 80,
        first: 5,
        second_at: 48,
        second: 0,
        want: Err(ElfFault::Segment { index: 0 }),
    },
    Case {
        what: "a byte past the file",
        first_at: 64,
        first: 119,
        second_at: 48,
        second: 0,
        want: Err(ElfFault::Segment { index: 0 }),
    },
    Case {
        what: "up to the file's end",
        first_at: 64,
        first: 118,
        second_at: 48,
        second: 0,
        want: Ok(28),
    },
    Case {
        what: "an offset that would wrap",
        first_at: 64,
        first: 0xffff_fffc,
        second_at: 48,
        second: 0,
        want: Err(ElfFault::Segment { index: 0 }),
    },
    Case {
        what: "an empty one past the file",
        first_at: 96,
        first: 125,
        second_at: 112,
        second: 0,
        want: Err(ElfFault::Segment { index: 1 }),
    },
    Case {
        what: "a byte past the memory",
        first_at: 112,
        first: 9,
        second_at: 48,
        second: 0,
        want: Err(ElfFault::Outside { index: 1 }),
    },
    Case {
        what: "up to the memory's end",
        first_at: 112,
        first: 8,
        second_at: 48,
        second: 0,
        want: Ok(32),
    },
    Case {
        what: "an end that would wrap",
        first_at: 100,
        first: 0xffff_fffc,
        second_at: 48,
        second: 0,
        want: Err(ElfFault::Outside { index: 1 }),
    },
    Case {
        what: "a range of nearly 4 GiB",
        first_at: 112,
        first: 0xffff_ffff,
        second_at: 48,
        second: 0,
        want: Err(ElfFault::Outside { index: 1 }),
    },
    Case {
        what: "an empty one anywhere",
        first_at: 100,
        first: 0xffff_ffff,
        second_at: 112,
        second: 0,
        want: Ok(24),
    },
    Case {
        what: "an empty one in another",
        first_at: 100,
        first: 20,
        second_at: 112,
        second: 0,
        want: Ok(24),
    },
    Case {
        what: "one byte shared",
        first_at: 100,
        first: 23,
        second_at: 48,
        second: 0,
        want: Err(ElfFault::Overlap { index: 1 }),
    },
    Case {
        what: "the whole of another",
        first_at: 100,
        first: 8,
        second_at: 112,
        second: 24,
        want: Err(ElfFault::Overlap { index: 1 }),
    },
    Case {
        what: "right before another",
        first_at: 100,
        first: 12,
        second_at: 48,
        second: 0,
        want: Ok(24),
    },
    Case {
        what: "another type",
        first_at: 60,
        first: 2,
        second_at: 48,
        second: 0,
        want: Ok(28),
    },
    Case {
        what: "the number among all types",
        first_at: 60,
        first: 2,
        second_at: 112,
        second: 9,
        want: Err(ElfFault::Outside { index: 1 }),
    },
    Case {
        what: "an odd entry",
        first_at: 24,
        first: 18,
        second_at: 48,
        second: 0,
        want: Err(ElfFault::Entry),
    },
    Case {
        what: "an entry past the memory",
        first_at: 24,
        first: 32,
        second_at: 48,
        second: 0,
        want: Err(ElfFault::Entry),
    },
    Case {
        what: "the last entry",
        first_at: 24,
        first: 28,
        second_at: 48,
        second: 0,
        want: Ok(28),
    },
    Case {
        what: "a range in the jump's place",
        first_at: 100,
        first: 0,
        second_at: 48,
        second: 0,
        want: Err(ElfFault::Entry),
    },
    Case {
        what: "the same with the entry 0",
        first_at: 24,
        first: 0,
        second_at: 100,
        second: 0,
        want: Ok(24),
    },
    Case {
        what: "a range from byte 3",
        first_at: 100,
        first: 3,
        second_at: 48,
        second: 0,
        want: Err(ElfFault::Entry),
    },
    Case {
        what: "a range from byte 4",
        first_at: 100,
        first: 4,
        second_at: 48,
        second: 0,
        want: Ok(24),
    },
    Case {
        what: "no magic and class 64",
        first_at: 4,
        first: 2,
        second_at: 0,
        second: 0,
        want: Err(ElfFault::NotElf),
    },
    Case {
        what: "a header and a segment at fault",
        first_at: 80,
        first: 5,
        second_at: 16,
        second: 0x00f3_0003,
        want: Err(ElfFault::Header),
    },
    Case {
        what: "the later header first",
        first_at: 112,
        first: 9,
        second_at: 80,
        second: 5,
        want: Err(ElfFault::Segment { index: 0 }),
    },
    Case {
        what: "the earlier header first",
        first_at: 68,
        first: 0xffff_fff0,
        second_at: 96,
        second: 0xffff_ffff,
        want: Err(ElfFault::Outside { index: 0 }),
    },
    Case {
        what: "outside and overlapping",
        first_at: 100,
        first: 16,
        second_at: 112,
        second: 17,
        want: Err(ElfFault::Outside { index: 1 }),
    },
    Case {
        what: "a segment that is outside too",
        first_at: 100,
        first: 40,
        second_at: 108,
        second: 5,
        want: Err(ElfFault::Segment { index: 1 }),
    },
    Case {
        what: "entry and overlap",
        first_at: 24,
        first: 2,
        second_at: 100,
        second: 16,
        want: Err(ElfFault::Overlap { index: 1 }),
    },
    Case {
        what: "overlap and entry",
        first_at: 100,
        first: 16,
        second_at: 24,
        second: 2,
        want: Err(ElfFault::Overlap { index: 1 }),
    },
];

#[test]
fn each_fault_comes_in_its_place(rt: HostRuntime) -> Result<(), Fail> {
    for case in &CASES {
        let mut file = TABLE_LAST.to_vec(rt.alloc())?;
        let (first, second) = (case.first_at as usize, case.second_at as usize);
        assert!(rt; first + 4 <= file.len() && second + 4 <= file.len());
        LittleEndian::write_u32(&mut file[first..], case.first);
        LittleEndian::write_u32(&mut file[second..], case.second);
        let answer = flatten(rt.alloc(), &file, 8).map(|image| image.len());
        assert!(rt; answer == case.want, "{}", case.what);
    }
    Ok(())
}
