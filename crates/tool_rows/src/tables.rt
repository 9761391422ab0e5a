//! What the commands make of flat images and of recordings, and recordings that are cut.

/// A recording, and the part that is named where so many bytes are left of it, from none on.
pub struct Cuts {
    pub recording: &'static str,
    pub parts: &'static [u8],
}

/// One recording in both versions.
pub static CUTS: [Cuts; 2] = [
    Cuts {
        recording: "52545201 02 904e 10 0c 93025500 23205002 73000000 0303 010202 00 01010202 00",
        parts: &[
            1, 1, 1, 1, 1, 1, 1, 1, 1, 2, 2, 2, 2, 2, 2, 2, 2, 2, 2, 2, 2, 3, 3, 4, 4, 4, 4, 5, 5,
            5, 5, 5,
        ],
    },
    Cuts {
        recording: "52545202 02 904e 10 0c 93025500 23205002 73000000 0303 00 01020002 01010202 00",
        parts: &[
            1, 1, 1, 1, 1, 1, 1, 1, 1, 2, 2, 2, 2, 2, 2, 2, 2, 2, 2, 2, 2, 3, 3, 4, 4, 4, 4, 4, 5,
            5, 5, 5, 5,
        ],
    },
];

/// What the commands make of flat images and of recordings, whole and damaged.
pub const ROWS: &str = "\
@ EACH_WAY_PRINTED
# What `print` says of it, in either version.
cores 2 limit 10000 words 32 image 32 | total 0 5 | total 1 4
reduced 2 | edge 0:3 1:2 | edge 1:3 0:4
regulated 2 vectors 2 edges | vector 0 1 1 3 2 | vector 1 0 1 3 4

@ TWO_INTO_ONE
# The same in version 2.
52545202 03 904e 40 2c 93021000 63085500 631c0500 23205004 73000000 03230004 23205008 73000000 83230008 03230004
73000000 050506 02 040103 000205 00 01 040104 000000000000

@ SAME_WORD_BYTES
# The same, but that each stores a byte of its own in the word.
52545201 02 904e 10 0c 93025500 23005502 73000000

# A run of one core is recorded.
$ record
< 73000000
= 52545202 01 904e 808001 04 73000000 01

$ record
= 52545202 01 904e 808001 00 00

$ record
< 93021000 73000000
= 52545202 01 904e 808001 08 93021000 73000000 02

$ record --words 4
< 73000000 * 4
= 52545202 01 904e 04 10
=<
= 01

# An image may fill the memory, and have no byte more.
$ record
< 00 * 65536
= 52545202 01 904e 808001 808004
=<
= 00

$ record
< 00 * 65537
! 2 rtr: input too large

$ record
< 13 * 65537
! 2 rtr: input too large

$ run
< 13 * 65537
! 2 rtr: input too large

$ record --words 4
< 00 * 17
! 2 rtr: input too large

# ADDI x0, x0, 0 over and over: the limit ends the run one before the last.
$ record
< 13000000 * 10001
= 52545202 01 904e 808001 c4b802
=<
= 904e

# An end is printed.
$ run
< 73000000
> core 0 exit retired 1 pc 00000004

$ run
> core 0 fetch retired 0 pc 00000000

# After ADDI x5, x0, 1 comes an instruction that would stop the core: it retires nothing. FENCE.I is
# no instruction here, and FENCE ignores its other fields.
$ run --words 4
< 93021000 03232000
> core 0 align retired 1 pc 00000004 | core 0 x5 00000001

$ run --words 4
< 93021000 00000000
> core 0 illegal retired 1 pc 00000004 | core 0 x5 00000001

$ run --words 4
< 93021000 6f002000
> core 0 jump retired 1 pc 00000004 | core 0 x5 00000001

$ run --words 4
< 93021000 03230004
> core 0 address retired 1 pc 00000004 | core 0 x5 00000001

$ run --words 4
< 93021000 0f100000
> core 0 illegal retired 1 pc 00000004 | core 0 x5 00000001

$ run --words 4
< 93021000 0f003083
> core 0 fetch retired 2 pc 00000008 | core 0 x5 00000001

# LR.W is no instruction here; AMOADD.W is one, and its address is a multiple of 4.
$ run --words 4
< 93021000 2fa30210
> core 0 illegal retired 1 pc 00000004 | core 0 x5 00000001

$ run --words 4
< 93021000 2fa30200
> core 0 align retired 1 pc 00000004 | core 0 x5 00000001

# Core 0 stores 7, loads it and ends; loads are printed where they are asked for.
$ run --words 32
< 631a0500 93027000 23205004 03230004 73000000 83230004 2320a004 73000000
> core 0 exit retired 5 pc 00000014 | core 0 x5 00000007 | core 0 x6 00000007
> mem 00000040 00000007

$ run --loads --words 32
< 631a0500 93027000 23205004 03230004 73000000 83230004 2320a004 73000000
> core 0 exit retired 5 pc 00000014 | core 0 x5 00000007 | core 0 x6 00000007
> mem 00000040 00000007
> load 0 4 00000040 00000007

# An ECALL that retires at the limit is an exit.
$ run --limit 3 --words 32
< 63160500 03230004 73000000 6f000000
> core 0 exit retired 3 pc 0000000c

$ run --limit=2 --words 32
< 63160500 03230004 73000000 6f000000
> core 0 limit retired 2 pc 00000008

# Recordings are printed: one of one core, and one of two cores with an edge and a vector each way.
$ print
< 52545201 01 904e 808001 04 73000000 01
> cores 1 limit 10000 words 16384 image 4 | total 0 1
> reduced 0
> regulated 0 vectors 0 edges

$ print
< @EACH_WAY_OLD
> @EACH_WAY_PRINTED

# The same recording in version 2 says the same, and is what either one migrates to.
$ print
< @EACH_WAY
> @EACH_WAY_PRINTED

$ migrate
< @EACH_WAY_OLD
= @EACH_WAY

$ migrate
< @EACH_WAY
= @EACH_WAY

# Two edges lead to one instruction. They stand by their source cores, which can't fall.
$ migrate
< @TWO_INTO_ONE_OLD
= @TWO_INTO_ONE

$ print
< 52545202 03 904e 40 2c 93021000 63085500 631c0500 23205004 73000000 03230004 23205008 73000000 83230008 03230004
< 73000000 050506 02 040205 000103 00 01 040104 000000000000
! 3 rtr: bad input, part 4

$ migrate
< 52545202 02 904e 10 0c
! 3 rtr: bad input, part 2

$ migrate
< 52545203 02 904e 20 20 631a0500 93027000 23205004 03230004 73000000 83230004 2320a004 73000000 0504 01 02 03 01 04
< 03 01 01 03 02 01 01 03 04
! 3 rtr: bad input, part 1

# Damaged recordings: the first part without a reading is named.
$ print
! 3 rtr: bad input, part 1

$ print
< 52545201 01 904e 808001 04 73
! 3 rtr: bad input, part 2

$ print
< 52545201 01 904e 808001 04 73000000
! 3 rtr: bad input, part 3

$ print
< 52545201 01 904e 808001 04 73000000 8100
! 3 rtr: bad input, part 3

$ print
< 52545201 01 904e 808001 04 73000000 914e
! 3 rtr: bad input, part 3

$ print
< 52545201 01 904e 808001 04 73000000 01 00
! 3 rtr: bad input, part 6

$ print
< @SAME_WORD_BYTES
< 0303 8100 02 02 00 01 01 02 02 00
! 3 rtr: bad input, part 4

$ print
< @SAME_WORD_BYTES
< 0303 01 02 02 00 01 01 02 02
! 3 rtr: bad input, part 5

$ print
< @SAME_WORD_BYTES
< 0303 01 02 02 00 01 01 02 02 00 00
! 3 rtr: bad input, part 6

$ print
< @SAME_WORD_BYTES
< 914e 03 01 02 02 00 01 01 02 02 00
! 3 rtr: bad input, part 3

$ print
< 52545201 02 904e 10 0c 93
! 3 rtr: bad input, part 2

# Each version has its own limits: of cores, of a core's instructions, and version 2 of all instructions.
$ print
< 52545201 09 01 04 00
! 3 rtr: bad input, part 1

$ print
< 52545201 01 a18d06 04 00 00
! 3 rtr: bad input, part 1

$ print
< 52545202 11 01 04 00
! 3 rtr: bad input, part 1

$ print
< 52545202 01 c1843d 04 00 00
! 3 rtr: bad input, part 1

$ print
< 52545202 05 c0843d 04 00
! 3 rtr: bad input, part 1

$ print
< 52545202 10 91a10f 04 00
! 3 rtr: bad input, part 1

$ print
< 52545202 01 c0843d 808010 00 c0843d
> cores 1 limit 1000000 words 262144 image 0 | total 0 1000000
> reduced 0
> regulated 0 vectors 0 edges

$ migrate
< 52545201 02 a08d06 808010 00 a08d06 a08d06 01 a08d06 a08d06 00 00 00
= 52545202 02 a08d06 808010 00 a08d06 a08d06 00 01 a08d06 00 a08d06 00 00

# Hostile numbers: counts that no file can hold, rises of zero, sums past 2^32, another version.
$ print
< @SAME_WORD
< 0303 ffffffff0f
! 3 rtr: bad input, part 4

$ print
< @SAME_WORD
< 0303 8080808010
! 3 rtr: bad input, part 4

$ print
< @SAME_WORD
< 0303 010002 00 00 00
! 3 rtr: bad input, part 4

$ print
< @SAME_WORD
< 0303 010204 00 00 00
! 3 rtr: bad input, part 4

$ print
< @SAME_WORD
< 0303 00 00 01 02 01 01 ffffffff0f 01 00
! 3 rtr: bad input, part 5

$ print
< 52545203 02 904e 10 0c 93025500 23205002 73000000 0303 00 00 00 00
! 3 rtr: bad input, part 1

# Peterson's lock, 500 rounds on one core: ten instructions a round, five before and ECALL. The flag is
# down again, the turn is the other core's, and the counter is 500.
$ run --words 128 --limit 100000
< 9302401f 13134500 93431500 13944300 93041000 23209310 23207012 83250410 63860500 03260012 e30a76fe 83260013 93861600
< 2328d012 23200310 9382f2ff e39a02fc 73000000
> core 0 exit retired 5006 pc 00000048 | core 0 x7 00000001 | core 0 x8 00000010 | core 0 x9 00000001
> core 0 x13 000001f4
> mem 00000120 00000001 | mem 00000130 000001f4";
