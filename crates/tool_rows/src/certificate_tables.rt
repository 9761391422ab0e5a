//! Certificates of recordings whose logs were written by hand. What each row wants was worked out from the logs
//! and the instructions: a clock has, for each core, how many of its instructions are the edge end or lead to it.

/// What `certify` and `check` make of recordings, and of certificates that were changed.
pub const CERTIFICATES: &str = "\
@ CLOCKS
# The clocks of `EACH_WAY`: each core has two edge ends.
02 0300 0403 02 0302 0303

# One core has no edge, and so no clock.
$ certify
< 52545202 01 904e 808001 04 73000000 01
=<
= 00

$ check
< 52545202 01 904e 808001 04 73000000 01 00
> least 0 edges

# Edges from 0:3 to 1:2 and from 1:3 to 0:4: each core has two edge ends.
$ certify
< @EACH_WAY
=<
= @CLOCKS

$ check
< @EACH_WAY
< @CLOCKS
> least 2 edges

# The certificate of the same in version 1 has it in version 2, and a certificate may begin with either.
$ certify
< @EACH_WAY_OLD
= @EACH_WAY
= @CLOCKS

$ check
< @EACH_WAY_OLD
< @CLOCKS
> least 2 edges

# So may one whose clock is wrong, and one with a byte too many; and `print` and `check` each read their own form.
$ check
< @EACH_WAY_OLD
< 02 0300 0402 02 0302 0303
! 7 rtr: clock 2 of core 0 is wrong

$ check
< @EACH_WAY_OLD
< 02 0300 0403 02 0302 0303 00
! 3 rtr: bad input, part 7

$ print
< @EACH_WAY_OLD
< @CLOCKS
! 3 rtr: bad input, part 6

$ check
< @EACH_WAY_OLD
! 3 rtr: bad input, part 6

# 1:3 comes before 0:4, and the clock of 0:4 has only two of core 1's instructions. In the other row, 0:3 comes
# before 1:2, whose clock lacks it.
$ check
< @EACH_WAY
< 02 0300 0402 02 0302 0303
! 7 rtr: clock 2 of core 0 is wrong

$ check
< @EACH_WAY
< 02 0300 0403 02 0202 0303
! 7 rtr: clock 1 of core 1 is wrong

# Edges from 1:3 to 0:4, from 1:4 to 2:4 and from 2:5 to 0:4, of which the last two and core 2 imply the first.
$ certify
< @TWO_INTO_ONE_OLD
! 7 rtr: edge 1:3 to 0:4 is not in the least log

$ check
< @TWO_INTO_ONE_OLD
< 01 040405 02 000300 000400 02 000404 000405
! 7 rtr: edge 1:3 to 0:4 is not needed

# The edge from 0:3 begins at no access.
$ certify
< @SAME_WORD
< 0303 010203 00 00 00
! 7 rtr: edge 0:3 to 1:2 is not in the least log

$ check
< @SAME_WORD
< 0303 010203 00 00 00 01 0300 01 0302
! 7 rtr: edge 0:3 to 1:2 is no conflict

# Recordings that aren't determinate by their reduced logs.
$ certify
< @SAME_WORD
< 0303 010202 010202 00 00
! 4 rtr: stuck at 1 1

$ certify
< @SAME_WORD
< 0403 010202 00 00 00
! 5 rtr: core 0 stops at 3

$ check
< @SAME_WORD
< 0303 00 00 00 00 00 00
! 6 rtr: no order from 0:2 to 1:2

# The first part without a reading is named. A recording has no clocks, and a certificate has more than one.
$ certify
! 3 rtr: bad input, part 1

$ check
< 52545202 01 904e 808001 04 73
! 3 rtr: bad input, part 2

$ check
< @EACH_WAY
! 3 rtr: bad input, part 6

$ print
< @EACH_WAY
< @CLOCKS
! 3 rtr: bad input, part 6

$ certify
< @EACH_WAY
< @CLOCKS
! 3 rtr: bad input, part 6

# A clock too few, a count above its core's total, and a byte too many.
$ check
< @EACH_WAY
< 02 0300 0403 01 0302
! 3 rtr: bad input, part 6

$ check
< @EACH_WAY
< 02 0300 0405 02 0302 0303
! 3 rtr: bad input, part 6

$ check
< @EACH_WAY
< 02 0300 0403 02 0302 0303 00
! 3 rtr: bad input, part 7";
