//! Recordings of cores with store buffers, and what is made of them. What each row wants was worked out from the logs
//! and the instructions: a comment says how, where they don't show it.

use self::Damage::{Part, Replays, Stops};

/// The rows.
const BUFFERS: &str = "\
@ BUFFERED
# Store buffering: each of two cores stores 1 to a word of its own, at 0x40 or 0x50, and then loads the other's. Both
# loads are logged with 0, and no edge orders anything.
52545203 02 904e 20 1c 13134500 93431500 13944300 93041000 23209304 83250404 73000000 0707 00 00 010600 010600

@ EACH_STORES
# The header and the image of it.
52545203 02 904e 20 1c 13134500 93431500 13944300 93041000 23209304 83250404 73000000

@ ONE_CALL
# The recording of one ECALL, and what it comes to.
52545203 01 904e 808001 04 73000000 01 00

@ ONE_CALL_TEXT
# How a run of one ECALL ends.
core 0 exit retired 1 pc 00000004

$ tsoreplay --loads
< @BUFFERED
> core 0 exit retired 7 pc 0000001c | core 0 x7 00000001 | core 0 x8 00000010 | core 0 x9 00000001
> core 1 exit retired 7 pc 0000001c | core 1 x6 00000010 | core 1 x9 00000001 | core 1 x10 00000001
> mem 00000040 00000001 | mem 00000050 00000001
> load 0 6 00000050 00000000 | load 1 6 00000040 00000000

$ tsoreplay
< @BUFFERED
> core 0 exit retired 7 pc 0000001c | core 0 x7 00000001 | core 0 x8 00000010 | core 0 x9 00000001
> core 1 exit retired 7 pc 0000001c | core 1 x6 00000010 | core 1 x9 00000001 | core 1 x10 00000001
> mem 00000040 00000001 | mem 00000050 00000001

$ tsoreplay
< @ONE_CALL
> @ONE_CALL_TEXT

# Core 1's word is logged at its store, where it is ignored: so its load finds what core 0 stored, which the low
# order has before.
$ tsoreplay --loads
< @EACH_STORES
< 0707 00 00 010600 010500
> core 0 exit retired 7 pc 0000001c | core 0 x7 00000001 | core 0 x8 00000010 | core 0 x9 00000001
> core 1 exit retired 7 pc 0000001c | core 1 x6 00000010 | core 1 x9 00000001 | core 1 x10 00000001
> core 1 x11 00000001
> mem 00000040 00000001 | mem 00000050 00000001
> load 0 6 00000050 00000000 | load 1 6 00000040 00000001

# A word that no run gives is taken as it stands; the others' conflicts are left open, which isn't looked at.
$ tsoreplay --loads
< @EACH_STORES
< 0706 00 00 0106ffffffff0f 00
> core 0 exit retired 7 pc 0000001c | core 0 x7 00000001 | core 0 x8 00000010 | core 0 x9 00000001
> core 0 x11 ffffffff
> core 1 total retired 6 pc 00000018 | core 1 x6 00000010 | core 1 x9 00000001 | core 1 x10 00000001
> core 1 x11 00000001
> mem 00000040 00000001 | mem 00000050 00000001
> load 0 6 00000050 ffffffff | load 1 6 00000040 00000001

# Both cores go as far as they can, core 0 first: their loads are before either store is written, and each is
# logged.
$ tsorecord --cores 2 --words 32 --choices 000000000000000000000000000000000000000000000000000000000000
< 13134500 93431500 13944300 93041000 23209304 83250404 73000000
= @BUFFERED

$ tsorun --loads --cores 2 --words 32 --choices 000000000000000000000000000000000000000000000000000000000000
< 13134500 93431500 13944300 93041000 23209304 83250404 73000000
> core 0 exit retired 7 pc 0000001c | core 0 x7 00000001 | core 0 x8 00000010 | core 0 x9 00000001
> core 1 exit retired 7 pc 0000001c | core 1 x6 00000010 | core 1 x9 00000001 | core 1 x10 00000001
> mem 00000040 00000001 | mem 00000050 00000001
> load 0 6 00000050 00000000 | load 1 6 00000040 00000000

# A load of block B, a store to the other block of its line, and sixteen loads of B. Fifteen of these join the
# store, which makes sixteen pending accesses, and then the store's block takes the line: so fifteen are logged.
$ tsorecord --cores 1 --words 96 --choices 000000000000000000000000000000000000000000000000000000000\
    000000000000000000000000000000000000000000000000000000000000000
< 83220014 23205004 03230014 03230014 03230014 03230014 03230014 03230014 03230014 03230014 03230014 03230014 03230014
< 03230014 03230014 03230014 03230014 03230014 73000000
= 52545203 01 904e 60 4c 83220014 23205004 03230014 03230014 03230014 03230014 03230014 03230014 03230014 03230014
= 03230014 03230014 03230014 03230014 03230014 03230014 03230014 03230014 73000000 13 0f 0300 0100 0100 0100 0100 0100
= 0100 0100 0100 0100 0100 0100 0100 0100 0100

$ tsorecord
< 73000000
= @ONE_CALL

$ tsorun
< 73000000
> @ONE_CALL_TEXT

$ tsorecord
= 52545203 01 904e 808001 00 00 00

$ tsorun --words 4
< 13134500 93431500 13944300 93041000 23209304
! 2 rtr: input too large

$ tsorecord --words 4
< 13134500 93431500 13944300 93041000 23209304
! 2 rtr: input too large

$ tsorun --elf
< 73000000
! 1 rtr: usage

$ tsorecord --loads
< 73000000
! 1 rtr: usage

# One byte more, a total past the program's end, and two edges that go round.
$ tsoreplay
< @EACH_STORES
< 0707 00 00 010600 010600 00
! 3 rtr: bad input, part 6

$ tsoreplay
< @EACH_STORES
< 0807 00 00 010600 010600
! 5 rtr: core 0 stops at 7

$ tsoreplay --loads
< @EACH_STORES
< 0707 01050105 01050005 00 00
! 4 rtr: stuck at 4 4

# The total past the end is met first, though core 1 can't go on.
$ tsoreplay
< @EACH_STORES
< 0907 00 01050009 00 00
! 5 rtr: core 0 stops at 7

# Nothing else reads it.
$ print
< @BUFFERED
! 3 rtr: bad input, part 1

$ replay
< @BUFFERED
! 3 rtr: bad input, part 1

$ replay --log regulated --loads
< @BUFFERED
! 3 rtr: bad input, part 1

$ replay --threads 2
< @BUFFERED
! 3 rtr: bad input, part 1

$ migrate
< @BUFFERED
! 3 rtr: bad input, part 1

$ certify
< @BUFFERED
! 3 rtr: bad input, part 1

$ check
< @BUFFERED
! 3 rtr: bad input, part 1

$ at --core 0 --count 1
< @BUFFERED
! 3 rtr: bad input, part 1

$ at --core 15 --count 9
< @BUFFERED
! 3 rtr: bad input, part 1

$ thin
< @BUFFERED
! 3 rtr: bad input, part 1

$ thin --certify
< @BUFFERED
! 3 rtr: bad input, part 1

$ checkthin
< @BUFFERED
! 3 rtr: bad input, part 1

# Nor does it read anything else: recordings of either other version, a certificate, a thin file, an image, and
# nothing.
$ tsoreplay
< 52545201 01 904e 808001 04 73000000 01
! 3 rtr: bad input, part 1

$ tsoreplay
< 52545202 01 904e 808001 04 73000000 01
! 3 rtr: bad input, part 1

$ tsoreplay
< 52545202 01 904e 808001 04 73000000 01 00
! 3 rtr: bad input, part 1

$ tsoreplay
< 52545202 02 904e 10 0c 93025500 23205002 73000000 0303 00 01020002 01010202 00 00 0000
! 3 rtr: bad input, part 1

$ tsoreplay
< 73000000
! 3 rtr: bad input, part 1

$ tsoreplay
! 3 rtr: bad input, part 1

# Words that mean nothing.
$ tsoreplay --log reduced
< @BUFFERED
! 1 rtr: usage

$ tsoreplay --loads --threads 2
< @BUFFERED
! 1 rtr: usage";

/// The table.
pub fn buffers() -> &'static str {
    BUFFERS
}

/// The parts in which `BUFFERED` is cut where so many bytes of it are left, from none on.
pub static CUT: [u8; 47] = [
    1, 1, 1, 1, 1, 1, 1, 1, 1, 2, 2, 2, 2, 2, 2, 2, 2, 2, 2, 2, 2, 2, 2, 2, 2, 2, 2, 2, 2, 2, 2, 2,
    2, 2, 2, 2, 2, 3, 3, 4, 4, 5, 5, 5, 5, 5, 5,
];

/// What is told where one byte of `BUFFERED` is replaced by the next number: nothing, as the bytes are replayed; the
/// part that has no reading; or a core of which the replay falls short, and after how many instructions.
pub enum Damage {
    Replays,
    Part(u8),
    Stops(u8, u8),
}

/// In turn for each byte: the header, with three cores and with a byte of image more among them; the seven
/// instructions; the totals; the two counts of edges; and each core's logged load.
pub static DAMAGED: [Damage; 47] = [
    Part(1),
    Part(1),
    Part(1),
    Part(1),
    Part(4),
    Replays,
    Replays,
    Part(1),
    Part(4),
    Stops(0, 0),
    Replays,
    Replays,
    Stops(1, 4),
    Stops(0, 1),
    Replays,
    Replays,
    Stops(0, 5),
    Stops(0, 2),
    Replays,
    Replays,
    Stops(0, 5),
    Stops(0, 3),
    Replays,
    Replays,
    Replays,
    Stops(0, 4),
    Stops(0, 4),
    Replays,
    Replays,
    Stops(0, 5),
    Replays,
    Stops(1, 5),
    Replays,
    Stops(0, 6),
    Stops(0, 6),
    Stops(0, 6),
    Stops(0, 6),
    Stops(0, 7),
    Stops(1, 7),
    Part(4),
    Part(4),
    Replays,
    Replays,
    Replays,
    Part(5),
    Replays,
    Replays,
];
