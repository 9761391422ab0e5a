//! Runs of the machine. What each row wants was worked out by hand from the instructions and the tables of
//! the protocol: a comment says how, where the words of the row and its image don't show it.

/// The rows.
pub const RUNS: &str = "\
@ LAST_WORD
# lui x5,0x100; sw x5,-4(x5); ecall: a store to the last word of 262,144.
b7021000 23ae52fe 73000000

@ EVERY_BLOCK
# slli x5,x10,17; lui x7,0x20; add x7,x7,x5; lw x6,0(x5); addi x5,x5,16; bne x5,x7,-8; ecall: core c loads the
# first word of each block from 131,072 * c up to 131,072 * (c + 1).
93121501 b7030200 b3835300 03a30200 93820201 e39c72fe 73000000

@ EVERY_BLOCK_STATE
# What `EVERY_BLOCK` leaves: each core stopped where the next one began, and its last word was 0.
core 0 exit retired 24580 pc 0000001c | core 0 x5 00020000 | core 0 x7 00020000
core 1 exit retired 24580 pc 0000001c | core 1 x5 00040000 | core 1 x7 00040000 | core 1 x10 00000001
core 2 exit retired 24580 pc 0000001c | core 2 x5 00060000 | core 2 x7 00060000 | core 2 x10 00000002
core 3 exit retired 24580 pc 0000001c | core 3 x5 00080000 | core 3 x7 00080000 | core 3 x10 00000003
core 4 exit retired 24580 pc 0000001c | core 4 x5 000a0000 | core 4 x7 000a0000 | core 4 x10 00000004
core 5 exit retired 24580 pc 0000001c | core 5 x5 000c0000 | core 5 x7 000c0000 | core 5 x10 00000005
core 6 exit retired 24580 pc 0000001c | core 6 x5 000e0000 | core 6 x7 000e0000 | core 6 x10 00000006
core 7 exit retired 24580 pc 0000001c | core 7 x5 00100000 | core 7 x7 00100000 | core 7 x10 00000007

@ EIGHT_RESULTS
# What `EIGHT_WORK` leaves. Each word that is written belongs to one core, and was 0, and the two words
# that all cores load are never written; so no schedule changes anything. The results of core c are b00 + c,
# a00 + c, and a00 + c + a00.
core 0 exit retired 17 pc 00000044 | core 0 x7 00000a00 | core 0 x8 00000a00 | core 0 x9 00001400
core 0 x11 00000b00 | core 0 x12 00000b00
core 1 exit retired 17 pc 00000044 | core 1 x5 00000010 | core 1 x6 00000004 | core 1 x7 00000a00 | core 1 x8 00000a01
core 1 x9 00001401 | core 1 x10 00000001 | core 1 x11 00000b00 | core 1 x12 00000b01
core 2 exit retired 17 pc 00000044 | core 2 x5 00000020 | core 2 x6 00000008 | core 2 x7 00000a00 | core 2 x8 00000a02
core 2 x9 00001402 | core 2 x10 00000002 | core 2 x11 00000b00 | core 2 x12 00000b02
core 3 exit retired 17 pc 00000044 | core 3 x5 00000030 | core 3 x6 0000000c | core 3 x7 00000a00 | core 3 x8 00000a03
core 3 x9 00001403 | core 3 x10 00000003 | core 3 x11 00000b00 | core 3 x12 00000b03
core 4 exit retired 17 pc 00000044 | core 4 x5 00000040 | core 4 x6 00000010 | core 4 x7 00000a00 | core 4 x8 00000a04
core 4 x9 00001404 | core 4 x10 00000004 | core 4 x11 00000b00 | core 4 x12 00000b04
core 5 exit retired 17 pc 00000044 | core 5 x5 00000050 | core 5 x6 00000014 | core 5 x7 00000a00 | core 5 x8 00000a05
core 5 x9 00001405 | core 5 x10 00000005 | core 5 x11 00000b00 | core 5 x12 00000b05
core 6 exit retired 17 pc 00000044 | core 6 x5 00000060 | core 6 x6 00000018 | core 6 x7 00000a00 | core 6 x8 00000a06
core 6 x9 00001406 | core 6 x10 00000006 | core 6 x11 00000b00 | core 6 x12 00000b06
core 7 exit retired 17 pc 00000044 | core 7 x5 00000070 | core 7 x6 0000001c | core 7 x7 00000a00 | core 7 x8 00000a07
core 7 x9 00001407 | core 7 x10 00000007 | core 7 x11 00000b00 | core 7 x12 00000b07
mem 00000060 00000b00 | mem 00000064 00000b01 | mem 00000068 00000b02 | mem 0000006c 00000b03 | mem 00000070 00000b04
mem 00000074 00000b05 | mem 00000078 00000b06 | mem 0000007c 00000b07 | mem 00000080 00000a00 | mem 00000090 00000a01
mem 000000a0 00000a02 | mem 000000b0 00000a03 | mem 000000c0 00000a04 | mem 000000d0 00000a05 | mem 000000e0 00000a06
mem 000000f0 00000a07 | mem 00000180 00001400 | mem 00000190 00001401 | mem 000001a0 00001402 | mem 000001b0 00001403
mem 000001c0 00001404 | mem 000001d0 00001405 | mem 000001e0 00001406 | mem 000001f0 00001407

@ EIGHT_LOADS
# The loads of `EIGHT_WORK`: each core finds its words 0 at its first loads of them, and at the last load
# its own result.
load 0 3 00000044 00000a00 | load 0 4 00000080 00000000 | load 0 8 00000180 00000000 | load 0 9 00000048 00000b00
load 0 10 00000060 00000000 | load 0 14 00000080 00000a00 | load 1 3 00000044 00000a00 | load 1 4 00000090 00000000
load 1 8 00000190 00000000 | load 1 9 00000048 00000b00 | load 1 10 00000064 00000000 | load 1 14 00000090 00000a01
load 2 3 00000044 00000a00 | load 2 4 000000a0 00000000 | load 2 8 000001a0 00000000 | load 2 9 00000048 00000b00
load 2 10 00000068 00000000 | load 2 14 000000a0 00000a02 | load 3 3 00000044 00000a00 | load 3 4 000000b0 00000000
load 3 8 000001b0 00000000 | load 3 9 00000048 00000b00 | load 3 10 0000006c 00000000 | load 3 14 000000b0 00000a03
load 4 3 00000044 00000a00 | load 4 4 000000c0 00000000 | load 4 8 000001c0 00000000 | load 4 9 00000048 00000b00
load 4 10 00000070 00000000 | load 4 14 000000c0 00000a04 | load 5 3 00000044 00000a00 | load 5 4 000000d0 00000000
load 5 8 000001d0 00000000 | load 5 9 00000048 00000b00 | load 5 10 00000074 00000000 | load 5 14 000000d0 00000a05
load 6 3 00000044 00000a00 | load 6 4 000000e0 00000000 | load 6 8 000001e0 00000000 | load 6 9 00000048 00000b00
load 6 10 00000078 00000000 | load 6 14 000000e0 00000a06 | load 7 3 00000044 00000a00 | load 7 4 000000f0 00000000
load 7 8 000001f0 00000000 | load 7 9 00000048 00000b00 | load 7 10 0000007c 00000000 | load 7 14 000000f0 00000a07

@ SIXTEEN_ENDS
# Sixteen cores that end at once: register x10 holds the number of its core.
core 0 exit retired 1 pc 00000004
core 1 exit retired 1 pc 00000004 | core 1 x10 00000001
core 2 exit retired 1 pc 00000004 | core 2 x10 00000002
core 3 exit retired 1 pc 00000004 | core 3 x10 00000003
core 4 exit retired 1 pc 00000004 | core 4 x10 00000004
core 5 exit retired 1 pc 00000004 | core 5 x10 00000005
core 6 exit retired 1 pc 00000004 | core 6 x10 00000006
core 7 exit retired 1 pc 00000004 | core 7 x10 00000007
core 8 exit retired 1 pc 00000004 | core 8 x10 00000008
core 9 exit retired 1 pc 00000004 | core 9 x10 00000009
core 10 exit retired 1 pc 00000004 | core 10 x10 0000000a
core 11 exit retired 1 pc 00000004 | core 11 x10 0000000b
core 12 exit retired 1 pc 00000004 | core 12 x10 0000000c
core 13 exit retired 1 pc 00000004 | core 13 x10 0000000d
core 14 exit retired 1 pc 00000004 | core 14 x10 0000000e
core 15 exit retired 1 pc 00000004 | core 15 x10 0000000f

@ LIMIT_STATE
# What `ENDLESS` leaves at the limit of 3: core 0's ECALL still retires there, and so it is an exit.
core 0 exit retired 3 pc 0000000c
core 1 limit retired 3 pc 0000000c | core 1 x10 00000001

@ OWN_WORDS_STATE
# What `OWN_WORDS` leaves: core 1 alone changes its word, the one at 36.
core 0 exit retired 4 pc 00000010
core 1 exit retired 4 pc 00000010 | core 1 x5 00000004 | core 1 x6 00000001 | core 1 x10 00000001
mem 00000024 00000001

# Two words of one block. No core stores to the other's word, so no schedule changes anything.
$ run --cores 2 --words 16 --seed 5
< @OWN_WORDS
> @OWN_WORDS_STATE

# Here core 1 takes the block from core 0 between the store and the load of core 0.
$ run --cores 2 --words 16 --choices 0000010101010101010100 --seed 9 --loads
< @OWN_WORDS
> @OWN_WORDS_STATE
> load 0 3 00000020 00000000 | load 1 3 00000024 00000001

# Core 0 stores 7; core 1's load takes it from the owner by way of the home, and core 1 then owns the
# block. That took all the choices, and core 0's load comes after.
$ run --loads --cores 2 --words 32 --choices 00000001010101010101010101010101
< @HANDED_OVER
> core 0 exit retired 5 pc 00000014 | core 0 x5 00000007 | core 0 x6 00000001
> core 1 exit retired 4 pc 00000020 | core 1 x7 00000007 | core 1 x10 00000001
> mem 00000040 00000001
> load 0 4 00000040 00000001 | load 1 2 00000040 00000007

# Bytes of one word: whoever is second, neither store loses the other's byte.
$ run --cores 2 --words 16 --choices 000000000000000000000000
< @OWN_BYTES
> core 0 exit retired 3 pc 0000000c | core 0 x5 00000005
> core 1 exit retired 3 pc 0000000c | core 1 x5 00000006 | core 1 x10 00000001
> mem 00000020 00000605

# One choice decides. After four choices a request of each core is on its link, and the fifth lets one be
# first; the store of the other is the last.
$ run --cores 2 --words 16 --choices 0000000000
< @ONE_WORD
> core 0 exit retired 3 pc 0000000c | core 0 x5 00000005
> core 1 exit retired 3 pc 0000000c | core 1 x5 00000006 | core 1 x10 00000001
> mem 00000020 00000006

$ run --cores 2 --words 16 --choices 0000000001
< @ONE_WORD
> core 0 exit retired 3 pc 0000000c | core 0 x5 00000005
> core 1 exit retired 3 pc 0000000c | core 1 x5 00000006 | core 1 x10 00000001
> mem 00000020 00000005

# Core 0 adds 1 and core 1 adds 2, in fourteen steps. Each has the word that it found among its loads.
$ run --loads --cores 2 --words 16 --choices 0000000000000000000000000000
< @SUM
> core 0 exit retired 4 pc 00000010 | core 0 x5 00000001 | core 0 x7 00000020
> core 1 exit retired 4 pc 00000010 | core 1 x5 00000002 | core 1 x6 00000001 | core 1 x7 00000020
> core 1 x10 00000001
> mem 00000020 00000003
> load 0 3 00000020 00000000 | load 1 3 00000020 00000001

# A read by the first writer between two writes. Core 1 loads (four choices); core 0 asks to write
# (three), core 1 gives up its copy, and core 0 stores (four) and loads (one). Core 1's store comes after.
$ run --cores 2 --words 32 --choices 010101010000000101010100 --loads
< @HANDED_OVER
> core 0 exit retired 5 pc 00000014 | core 0 x5 00000007 | core 0 x6 00000007
> core 1 exit retired 4 pc 00000020 | core 1 x10 00000001
> mem 00000040 00000001
> load 0 4 00000040 00000007 | load 1 2 00000040 00000000

# PutS is stalled. Core 1 loads the word (five choices), core 0 asks to write (three), and core 1's next
# load sends PutS. The home takes core 0's request first, so Inv meets the copy on its way back (three
# more), and PutS arrives when core 0 owns the block. Both loads find 0.
$ run --cores 2 --words 96 --choices 01010101010000000000000000 --loads
< @READER_EVICTS
> core 0 exit retired 4 pc 00000010 | core 0 x5 00000009
> core 1 exit retired 5 pc 0000001c | core 1 x5 0000000a | core 1 x10 00000001
> mem 00000040 00000009
> load 1 3 00000040 00000000 | load 1 4 00000140 00000000

# PutM is stalled. Core 0 stores 9 (five choices), core 1 asks to read (three), and core 0's load sends
# PutM. The home takes core 1's request first, so the forward meets the copy on its way back, and core 1
# gets the 9 of it.
$ run --cores 2 --words 96 --choices 00000001010101010001000000 --loads
< @WRITER_EVICTS
> core 0 exit retired 5 pc 00000014 | core 0 x5 00000009
> core 1 exit retired 4 pc 0000001c | core 1 x5 0000000a | core 1 x6 00000009 | core 1 x10 00000001
> mem 00000040 00000009
> load 0 4 00000140 00000000 | load 1 3 00000040 00000009

# The same, but that core 1 asks to write: its 10 is stored after the 9, and the PutM that arrives last is
# dropped.
$ run --cores 2 --words 96 --choices 00000001010101010001000000
< @WRITERS_EVICT
> core 0 exit retired 5 pc 00000014 | core 0 x5 00000009
> core 1 exit retired 4 pc 0000001c | core 1 x5 0000000a | core 1 x10 00000001
> mem 00000040 0000000a

# A limit. No core stores anything, so no schedule changes anything.
$ run --cores 2 --limit 3 --words 32
< @ENDLESS
> @LIMIT_STATE

$ run --cores 2 --limit 3 --words 32 --choices 01010101 --seed 4 --loads
< @ENDLESS
> @LIMIT_STATE
> load 0 2 00000040 00000000

# Eight cores that share, upgrade and evict, by two schedules.
$ run --cores 8 --words 128 --seed 1
< @EIGHT_WORK
> @EIGHT_RESULTS

$ run --cores 8 --words 128 --seed 18446744073709551615 --loads
< @EIGHT_WORK
> @EIGHT_RESULTS
> @EIGHT_LOADS

# The most cores and the least of all else.
$ run --cores=16 --limit=1 --words=4 --choices=ff0007 --seed=0
< @END
> @SIXTEEN_ENDS

# Bytes that the run doesn't reach are ignored.
$ run --choices 00ff --loads
< @END
> core 0 exit retired 1 pc 00000004

# The last word of the largest memory, which nothing else of it is needed for.
$ run --words 262144
< @LAST_WORD
> core 0 exit retired 3 pc 0000000c | core 0 x5 00100000
> mem 000ffffc 00100000

# Every block of the largest memory, 8192 by each core: three instructions before the loop, three for each
# block, and ECALL.
$ run --cores 8 --words 262144 --limit 100000
< @EVERY_BLOCK
> @EVERY_BLOCK_STATE";

/// Words that mean nothing.
pub static FAULTY: [&str; 54] = [
    "run --cores 17",
    "run --cores 0",
    "run --cores 01",
    "run --cores 2 --cores 2",
    "run --cores 2 --cores=3",
    "run --cores",
    "run --cores=",
    "run --core 2",
    "run --cores 2 2",
    "run --choices 0",
    "run --choices 000",
    "run --choices 0A",
    "run --choices 0g",
    "run --choices 0x00",
    "run --choices=",
    "run --choices ",
    "run --choices",
    "run --choices 00 --choices 00",
    "run --seed 18446744073709551616",
    "run --seed 00",
    "run --seed -1",
    "run --seed +1",
    "run --seed=",
    "run --seed",
    "run --seed 1 --seed 1",
    "run --loads 1",
    "run --loads=1",
    "run --loads --loads",
    "run --limit 0",
    "run --limit 1000001",
    "run --words 0",
    "run --words 262148",
    "run --cores 2 --",
    "run --help",
    "print --cores 2",
    "print --choices 00",
    "print --seed 0",
    "print --loads",
    "record --loads",
    "record --log reduced",
    "replay --log",
    "replay --log=last",
    "replay --log reduced --log reduced",
    "replay --loads --loads",
    "record --cores 17",
    "record --cores 2 --cores 2",
    "record --cores 16 --limit 250001",
    "run --limit=1000000 --cores 5 --loads",
    "record --choices 0",
    "",
    "record --words 6",
    "record --cores 01",
    "record --limit 2 --limit 2",
    "replay --limit 1",
];
