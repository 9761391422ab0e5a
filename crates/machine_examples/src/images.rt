//! Programs of two cores, and choices for runs of them.

/// The words of the memory in each run.
pub const WORDS: u32 = 96;

/// slli x6,x10,4; xori x7,x10,1; slli x8,x7,4; addi x9,x0,1; sw x9,64(x6); lw x11,64(x8); ecall:
/// each core writes a word of its own and then reads the other's.
pub const STORE_BUFFERING: [u8; 28] = [
    0x13, 0x13, 0x45, 0x00, 0x93, 0x43, 0x15, 0x00, 0x13, 0x94, 0x43, 0x00, 0x93, 0x04, 0x10, 0x00,
    0x23, 0x20, 0x93, 0x04, 0x83, 0x25, 0x04, 0x04, 0x73, 0x00, 0x00, 0x00,
];

/// bne x10,x0,+20; addi x5,x0,7; sw x5,64(x0); lw x6,64(x0); ecall; lw x7,64(x0); sw x10,64(x0); ecall:
/// core 0 writes a word and reads it, core 1 reads it and then writes it.
pub const HANDED_OVER: [u8; 32] = [
    0x63, 0x1a, 0x05, 0x00, 0x93, 0x02, 0x70, 0x00, 0x23, 0x20, 0x50, 0x04, 0x03, 0x23, 0x00, 0x04,
    0x73, 0x00, 0x00, 0x00, 0x83, 0x23, 0x00, 0x04, 0x23, 0x20, 0xa0, 0x04, 0x73, 0x00, 0x00, 0x00,
];

/// addi x5,x10,5; sb x5,32(x10); ecall: each core writes a byte of its own, in one word.
pub const BYTES_OF_A_WORD: [u8; 12] = [
    0x93, 0x02, 0x55, 0x00, 0x23, 0x00, 0x55, 0x02, 0x73, 0x00, 0x00, 0x00,
];

/// addi x7,x0,32; addi x5,x10,1; amoadd.w x6,x5,(x7); ecall: each core adds to the same word.
pub const SUM: [u8; 16] = [
    0x93, 0x03, 0x00, 0x02, 0x93, 0x02, 0x15, 0x00, 0x2f, 0xa3, 0x53, 0x00, 0x73, 0x00, 0x00, 0x00,
];

/// addi x5,x10,9; sw x5,64(x0); lw x7,320(x0); sb x5,321(x0); lw x6,64(x0); fence; addi x8,x0,64;
/// amoadd.w x9,x5,(x8); ecall: accesses to two blocks with one line, a fence and an atomic memory operation.
pub const MIXED: [u8; 36] = [
    0x93, 0x02, 0x95, 0x00, 0x23, 0x20, 0x50, 0x04, 0x83, 0x23, 0x00, 0x14, 0xa3, 0x00, 0x50, 0x14,
    0x03, 0x23, 0x00, 0x04, 0x0f, 0x00, 0x00, 0x00, 0x13, 0x04, 0x00, 0x04, 0xaf, 0x24, 0x54, 0x00,
    0x73, 0x00, 0x00, 0x00,
];

/// All choices are 0.
pub const ALL_ZERO: [u32; 1] = [0];

/// Choices that a generator drew.
pub const ONE_LOGGED: [u32; 29] = [
    28, 46, 43, 184, 86, 157, 128, 108, 18, 81, 220, 201, 190, 227, 137, 18, 14, 186, 238, 163,
    194, 216, 84, 90, 120, 118, 12, 90, 166,
];

/// Choices that a generator drew.
pub const OWN_STORE_SEEN: [u32; 24] = [
    197, 215, 20, 132, 248, 207, 155, 244, 183, 111, 71, 144, 71, 48, 128, 75, 158, 50, 37, 169,
    241, 51, 181, 222,
];

/// Choices that a generator drew.
pub const BYTES_BUFFERED: [u32; 14] = [
    197, 215, 20, 132, 248, 207, 155, 244, 183, 111, 71, 144, 71, 48,
];

/// Choices that a generator drew.
pub const MIXED_ENDS: [u32; 64] = [
    28, 46, 43, 184, 86, 157, 128, 108, 18, 81, 220, 201, 190, 227, 137, 18, 14, 186, 238, 163,
    194, 216, 84, 90, 120, 118, 12, 90, 166, 88, 69, 184, 93, 228, 212, 186, 181, 185, 228, 82,
    204, 236, 127, 250, 142, 255, 181, 232, 236, 179, 233, 249, 113, 166, 85, 137, 245, 158, 155,
    208, 159, 106, 250, 187,
];

/// The choice of this number: 0 behind the last.
pub fn choice_at(choices: &[u32], number: usize) -> u32 {
    choices.get(number).copied().unwrap_or(0)
}
