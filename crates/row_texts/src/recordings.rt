//! Recordings that several crates' tests read.

/// Core 0 stores 7 to word 16 and loads it, and core 1 loads it and stores to it. Both logs order 0:3
/// before 1:2 and 1:3 before 0:4.
pub const HANDED_OVER: [u8; 57] = [
    0x52, 0x54, 0x52, 1, 2, 0x90, 0x4e, 0x20, 0x20, 0x63, 0x1a, 5, 0, 0x93, 2, 0x70, 0, 0x23, 0x20,
    0x50, 4, 3, 0x23, 0, 4, 0x73, 0, 0, 0, 0x83, 0x23, 0, 4, 0x23, 0x20, 0xa0, 4, 0x73, 0, 0, 0, 5,
    4, 1, 2, 3, 1, 4, 3, 1, 1, 3, 2, 1, 1, 3, 4,
];

/// `HANDED_OVER` with its reduced log alone: the regulated log has no vectors.
pub const HANDED_OVER_REDUCED: [u8; 51] = [
    0x52, 0x54, 0x52, 1, 2, 0x90, 0x4e, 0x20, 0x20, 0x63, 0x1a, 5, 0, 0x93, 2, 0x70, 0, 0x23, 0x20,
    0x50, 4, 3, 0x23, 0, 4, 0x73, 0, 0, 0, 0x83, 0x23, 0, 4, 0x23, 0x20, 0xa0, 4, 0x73, 0, 0, 0, 5,
    4, 1, 2, 3, 1, 4, 3, 0, 0,
];

/// The same program on three cores: core 0 stores, cores 1 and 2 load, core 1 stores, core 2 stores, and core 0
/// loads. The totals are 5, 4 and 4. The reduced log has 0:3 before 1:2 and 2:2, 2:2 before 1:3, 1:3 before 2:3, and
/// 2:3 before 0:4; the regulated log has 1:4 and 2:4 before 0:5 besides.
pub const HANDED_ON: [u8; 86] = [
    0x52, 0x54, 0x52, 1, 3, 0x90, 0x4e, 0x20, 0x20, 0x63, 0x1a, 5, 0, 0x93, 2, 0x70, 0, 0x23, 0x20,
    0x50, 4, 3, 0x23, 0, 4, 0x73, 0, 0, 0, 0x83, 0x23, 0, 4, 0x23, 0x20, 0xa0, 4, 0x73, 0, 0, 0, 5,
    4, 4, 1, 2, 3, 1, 2, 3, 0, 1, 3, 3, 1, 4, 3, 1, 3, 2, 1, 1, 3, 2, 1, 1, 3, 2, 1, 1, 4, 5, 1, 1,
    3, 3, 1, 2, 3, 4, 1, 1, 1, 1, 2, 3,
];

/// What stands before the totals of a recording of two cores, each of which stores its number and 5 to word 8, its
/// second instruction of three. The number of cores is the byte at 4.
pub const STORES: [u8; 21] = [
    0x52, 0x54, 0x52, 1, 2, 0x90, 0x4e, 0x10, 0x0c, 0x93, 2, 0x55, 0, 0x23, 0x20, 0x50, 2, 0x73, 0,
    0, 0,
];
