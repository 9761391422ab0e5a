//! Replays of recordings whose logs were written by hand. What each row wants was worked out from the logs and
//! the instructions: a comment says how, where they don't show it.

/// The rows.
pub const REPLAYS: &str = "\
@ FOR_THREE
# The same of three cores.
52545201 03 904e 10 0c

@ THREE_WORDS_STATE
# What `THREE_WORDS` leaves of three cores, where cores 1 and 2 each load the three words after core 0 wrote
# them.
core 0 exit retired 6 pc 00000018 | core 0 x5 00000009
core 1 exit retired 8 pc 00000030 | core 1 x5 0000000a | core 1 x6 00000009 | core 1 x7 00000009 | core 1 x8 00000009
core 1 x10 00000001
core 2 exit retired 8 pc 00000030 | core 2 x5 0000000b | core 2 x6 00000009 | core 2 x7 00000009 | core 2 x8 00000009
core 2 x10 00000002
mem 00000040 00000009 | mem 00000044 00000009 | mem 00000048 00000009
load 1 3 00000040 00000009 | load 1 4 00000044 00000009 | load 1 7 00000048 00000009 | load 2 3 00000040 00000009
load 2 4 00000044 00000009 | load 2 7 00000048 00000009

$ replay
< 52545201 01 904e 808001 04
< 73000000
< 01
> core 0 exit retired 1 pc 00000004

# Both logs order 0:3 before 1:2 and 1:3 before 0:4.
$ replay --loads
< 52545201 02 904e 20 20
< @HANDED_OVER
< 0504 01 02 03 01 04 03 01 01 03 02 01 01 03 04
> @HANDED_OVER_STATE

$ replay --log=regulated --loads
< 52545201 02 904e 20 20
< @HANDED_OVER
< 0504 01 02 03 01 04 03 01 01 03 02 01 01 03 04
> @HANDED_OVER_STATE

# The reduced log orders 0:2 before 1:2, so that core 1 writes last. The regulated log goes round, and neither
# comes first.
$ replay --log reduced
< @TWO_CORES
< @ONE_WORD
< 0303 010202 00 01010202 01010202
> core 0 exit retired 3 pc 0000000c | core 0 x5 00000005
> core 1 exit retired 3 pc 0000000c | core 1 x5 00000006 | core 1 x10 00000001
> mem 00000020 00000006

$ replay --log regulated
< @TWO_CORES
< @ONE_WORD
< 0303 010202 00 01010202 01010202
! 4 rtr: stuck at 1 1

# Core 0 retires only its first instruction, so there is no conflict.
$ replay
< @TWO_CORES
< @ONE_WORD
< 0103 00 00 00 00
> core 0 total retired 1 pc 00000004 | core 0 x5 00000005
> core 1 exit retired 3 pc 0000000c | core 1 x5 00000006 | core 1 x10 00000001
> mem 00000020 00000006

# Vectors of three positions each, from 0:3, 0:4 and 0:5 to 3, 4 and 5 of cores 1 and 2. The third position
# comes two instructions before the load that the reduced log orders.
$ replay --loads
< 52545201 03 904e 20 30
< @THREE_WORDS
< 060808 03 0303 0101 0301 03 0303 0101 0301 00 00 00 00 01 03 0303 0101 01 03 0303 0101 00 00 00 00
> @THREE_WORDS_STATE

$ replay --log regulated --loads
< 52545201 03 904e 20 30
< @THREE_WORDS
< 060808 03 0303 0101 0301 03 0303 0101 0301 00 00 00 00 01 03 0303 0101 01 03 0303 0101 00 00 00 00
> @THREE_WORDS_STATE

# The two stores wait for each other.
$ replay
< @TWO_CORES
< @ONE_WORD
< 0303 010202 010202 00 00
! 4 rtr: stuck at 1 1

# Core 0 has three instructions, and the recording says four.
$ replay
< @TWO_CORES
< @ONE_WORD
< 0403 010202 00 00 00
! 5 rtr: core 0 stops at 3

# No edge at all.
$ replay
< @TWO_CORES
< @ONE_WORD
< 0303 00 00 00 00
! 6 rtr: no order from 0:2 to 1:2

# The reduced log orders the two stores, and the regulated log is empty.
$ replay --log regulated
< @TWO_CORES
< @ONE_WORD
< 0303 010202 00 00 00
! 6 rtr: no order from 0:2 to 1:2

# The only edge leads to an instruction that core 0 doesn't have: core 0 waits there until core 1 has made
# its store.
$ replay
< @TWO_CORES
< @ONE_WORD
< 0403 00 010402 00 00
! 5 rtr: core 0 stops at 3

# Core 0 would fall short at its fourth instruction, but waits for core 1, and core 1 for it.
$ replay
< @TWO_CORES
< @ONE_WORD
< 0403 010204 010402 00 00
! 4 rtr: stuck at 3 1

# Core 0's store comes before core 1's, and core 2's is left open to both: the latest of them is named.
$ replay
< @FOR_THREE
< @ONE_WORD
< 030303 010202 00 00 00 00 00 00 00 00 00 00 00
! 6 rtr: no order from 1:2 to 2:2

# Core 2's store is left open to core 0's alone.
$ replay
< @FOR_THREE
< @ONE_WORD
< 030303 00 00 010202 010202 00 00 00 00 00 00 00 00
! 6 rtr: no order from 0:2 to 2:2

# Each core stores a byte of its own in one word, and neither log orders the two.
$ replay
< @TWO_CORES
< @OWN_BYTES
< 0303 00 00 00 00
! 6 rtr: no order from 0:2 to 1:2

# No recording.
$ replay
< @ONE_WORD
! 3 rtr: bad input, part 1

$ replay
< @TWO_CORES
< @ONE_WORD
< 0303 010202 00 00
! 3 rtr: bad input, part 5";
