//! States at instructions of recordings. What each row wants was worked out from the logs and the instructions: a
//! comment says how, where they don't show it.

/// The rows.
pub const STATES: &str = "\
@ HEADER
# What stands before the image in the recording of `HANDED_OVER`, and what stands behind it.
52545201 02 904e 20 20

@ LOGS
0504 01 02 03 01 04 03 01 01 03 02 01 01 03 04

@ ENDED
# And where core 0 has ended, with what was loaded: its last instruction doesn't need core 1's last.
cut 5 3
core 0 exit retired 5 pc 00000014 | core 0 x5 00000007 | core 0 x6 00000001
core 1 total retired 3 pc 0000001c | core 1 x7 00000007 | core 1 x10 00000001
mem 00000040 00000001
load 0 4 00000040 00000001 | load 1 2 00000040 00000007

# Core 1 has just read what core 0 wrote, or is about to read it.
$ at --core 1 --count 2
< @HEADER
< @HANDED_OVER
< @LOGS
> @READ

$ at --core 1 --count 2 --latest
< @HEADER
< @HANDED_OVER
< @LOGS
> cut 3 1
> core 0 total retired 3 pc 0000000c | core 0 x5 00000007
> core 1 total retired 1 pc 00000014 | core 1 x10 00000001
> mem 00000040 00000007

$ at --core 0 --count 5 --loads
< @HEADER
< @HANDED_OVER
< @LOGS
> @ENDED

$ at --log regulated --loads --count 5 --core 0
< @HEADER
< @HANDED_OVER
< @LOGS
> @ENDED

$ at --core 0 --count 3 --latest --log=regulated
< @HEADER
< @HANDED_OVER
< @LOGS
> @UNWRITTEN

# Core 1 has taken its branch, which needs nothing of core 0.
$ at --core 1 --count 1 --loads
< @HEADER
< @HANDED_OVER
< @LOGS
> cut 0 1
> core 0 total retired 0 pc 00000000
> core 1 total retired 1 pc 00000014 | core 1 x10 00000001

# Core 0 has five instructions.
$ at --core 0 --count 6
< @HEADER
< @HANDED_OVER
< @LOGS
! 12 rtr: no instruction 0:6

# Core 0 has three instructions, and there are two cores.
$ at --core 0 --count 6
< @TWO_CORES
< @ONE_WORD
< 0303 010202 00 01010202 00
! 12 rtr: no instruction 0:6

$ at --core 2 --count 1
< @TWO_CORES
< @ONE_WORD
< 0303 010202 00 01010202 00
! 12 rtr: no instruction 2:1

# The two stores wait for each other, which is told only of an instruction that the recording has.
$ at --core 1 --count 4 --latest
< @TWO_CORES
< @ONE_WORD
< 0303 010202 010202 00 00
! 12 rtr: no instruction 1:4

$ at --core 1 --count 3 --latest
< @TWO_CORES
< @ONE_WORD
< 0303 010202 010202 00 00
! 4 rtr: stuck at 1 1

# The recording says four instructions of core 0, and its program has three.
$ at --core 0 --count 4
< @TWO_CORES
< @ONE_WORD
< 0403 010202 00 00 00
! 5 rtr: core 0 stops at 3

# The reduced log orders the two stores, and the regulated log is empty.
$ at --core 0 --count 1 --log regulated
< @TWO_CORES
< @ONE_WORD
< 0303 010202 00 00 00
! 6 rtr: no order from 0:2 to 1:2

# No recording, which comes before an instruction that it hasn't.
$ at --core 15 --count 1000000
< @TWO_CORES
< @ONE_WORD
< 0303 010202 00 00
! 3 rtr: bad input, part 5

# An instruction has a count of 1 at least.
$ at --core 0 --count 0
< @TWO_CORES
< @ONE_WORD
< 0303 010202 00 00 00
! 1 rtr: usage";
