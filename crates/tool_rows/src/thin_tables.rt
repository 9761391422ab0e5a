//! Regulated logs of which vectors are left out, and what shows that the others are needed. What each row wants was
//! worked out from the logs and the instructions: a comment says how, where they don't show it.

/// The rows.
pub const THINNED: &str = "\
@ OLD
# A recording of three cores and sixty-four words, of `READ_IN_TURN`, in version 1: all but its totals and logs.
52545201 03 904e 40 2c 93021000 63085500 631c0500 23205004 73000000 03230004 23205008 73000000 83230008 03230004
73000000

@ NEW
# The same in version 2.
52545202 03 904e 40 2c 93021000 63085500 631c0500 23205004 73000000 03230004 23205008 73000000 83230008 03230004
73000000

@ MORE
# The whole of one in version 1 with a vector from 1:3 to 0:4. The other two imply it together, by 1:4, 2:4 and 2:5.
52545201 03 904e 40 2c 93021000 63085500 631c0500 23205004 73000000 03230004 23205008 73000000 83230008 03230004
73000000 050506 00 00 00 010404 010405 00 00 00 01010304 01010404 01010504 00

@ FEWER
# The same in version 2, without that vector.
52545202 03 904e 40 2c 93021000 63085500 631c0500 23205004 73000000 03230004 23205008 73000000 83230008 03230004
73000000 050506 01040205 00 01040104 00 00 00 01010404 01010504 00

@ SHOWN
# What shows that both are needed: without the first core 2 can come to 2:4 with nothing of core 1, and without the
# second core 0 to 0:4 with nothing of core 2.
00000004 00040000

$ thin
< @MORE
= @FEWER

$ thin --certify
< @MORE
= @FEWER
= @SHOWN

$ thin
< @FEWER
= @FEWER

$ thin --certify
< @FEWER
= @FEWER
= @SHOWN

$ checkthin
< @FEWER
< @SHOWN
> needed 2 vectors

# The cut holds 1:4, from which the edge of the first vector leads.
$ checkthin
< @FEWER
< 00000404 00040000
! 14 rtr: vector 1 is not shown needed

# The first vector has one edge, number 0.
$ checkthin
< @FEWER
< 01000004 00040000
! 14 rtr: vector 1 is not shown needed

# The cut holds 0:4 but not 2:5, from which the second vector leads to it.
$ checkthin
< @FEWER
< 00040004 00040000
! 14 rtr: vector 1 is not shown needed

# The cut of the second vector lacks 0:4.
$ checkthin
< @FEWER
< 00000004 00030000
! 14 rtr: vector 2 is not shown needed

# Core 2 has six instructions; a byte is left over; and thin files begin as version 2 alone.
$ checkthin
< @FEWER
< 00000007 00040000
! 3 rtr: bad input, part 6

$ checkthin
< @FEWER
< 00000004 00040000 00
! 3 rtr: bad input, part 7

$ checkthin
< @MORE
! 3 rtr: bad input, part 1

# No vector at all: core 0's store comes before core 1's load in the lowest order.
$ thin
< @OLD
< 050506 00 00 00 010404 010405 00 00 00 00 00 00 00
! 6 rtr: no order from 0:4 to 1:3

$ checkthin
< @NEW
< 050506 01040205 00 01040104 00 00 00 00 00 00
! 6 rtr: no order from 0:4 to 1:3

# The vectors from 0:4 to 1:3 and from 1:3 to 0:4.
$ thin --certify
< @OLD
< 050506 00 00 00 010404 010405 00 01010403 00 01010304 00 00 00
! 4 rtr: stuck at 3 2 6

$ thin --certify
< @OLD
< 0505
! 3 rtr: bad input, part 3";

/// One vector, from each instruction of core 0 to the one of core 1 with its count: of 65,536 edges, which is tried and
/// stays, and of one more, which is not tried.
pub const LONG_VECTORS: &str = "\
@ ENDLESS_JUMPS
# Two cores that jump to themselves, 70,000 times each, and no reduced log, in version 2: all but the regulated log.
52545202 02 a08d06 04 04 6f000000 f0a204 f0a204 00 00

$ thin
< @ENDLESS_JUMPS
< 01 808004 01 01 01 01 00
=<

$ thin
< @ENDLESS_JUMPS
< 01 818004 01 01 01 01 00
! 13 rtr: 1 vectors with 65537 edges are too many";
