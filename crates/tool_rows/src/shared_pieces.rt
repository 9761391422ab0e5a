//! What several tables name.

/// Programs, recordings and states that several tables name.
pub const SHARED: &str = "\
@ EACH_WAY_OLD
# A recording in version 1 of two cores with an edge and a vector each way: 0:3 comes before 1:2, and 1:3 before 0:4.
52545201 02 904e 20 20 631a0500 93027000 23205004 03230004 73000000 83230004 2320a004 73000000 0504 01 02 03 01 04 03
01 01 03 02 01 01 03 04

@ EACH_WAY
# The same in version 2.
52545202 02 904e 20 20 631a0500 93027000 23205004 03230004 73000000 83230004 2320a004 73000000 0504 01040103 01020003
01010302 01010304

@ TWO_INTO_ONE_OLD
# A recording in version 1 of three cores with edges from 1:3 to 0:4, from 1:4 to 2:4 and from 2:5 to 0:4.
52545201 03 904e 40 2c 93021000 63085500 631c0500 23205004 73000000 03230004 23205008 73000000 83230008 03230004
73000000 050506 00 00 010403 010404 010405 00 000000000000

@ SAME_WORD
# The header and the image of one in version 1 of two cores that store to the same word, each with its second of three
# instructions.
52545201 02 904e 10 0c 93025500 23205002 73000000

@ END
# ecall
73000000

@ OWN_WORDS
# slli x5,x10,2; sw x10,32(x5); lw x6,32(x5); ecall: each core has a word of its own, in one block.
93122500 23a0a202 03a30202 73000000

@ HANDED_OVER
# bne x10,x0,+20; addi x5,x0,7; sw x5,64(x0); lw x6,64(x0); ecall; lw x7,64(x0); sw x10,64(x0); ecall: core 0
# writes a word and reads it, core 1 reads it and then writes it.
631a0500 93027000 23205004 03230004 73000000 83230004 2320a004 73000000

@ OWN_BYTES
# addi x5,x10,5; sb x5,32(x10); ecall: each core writes a byte of its own, in one word.
93025500 23005502 73000000

@ ONE_WORD
# addi x5,x10,5; sw x5,32(x0); ecall: each core writes the same word.
93025500 23205002 73000000

@ SUM
# addi x7,x0,32; addi x5,x10,1; amoadd.w x6,x5,(x7); ecall: each core adds to the same word.
93030002 93021500 2fa35300 73000000

@ READER_EVICTS
# addi x5,x10,9; bne x10,x0,+12; sw x5,64(x0); ecall; lw x6,64(x0); lw x7,320(x0); ecall: core 0 writes a word
# that core 1 reads, and core 1 then reads one whose block has the same line.
93029500 63160500 23205004 73000000 03230004 83230014 73000000

@ WRITER_EVICTS
# addi x5,x10,9; bne x10,x0,+16; sw x5,64(x0); lw x7,320(x0); ecall; lw x6,64(x0); ecall: core 0 writes a word
# and then reads one whose block has the same line; core 1 reads the first.
93029500 63180500 23205004 83230014 73000000 03230004 73000000

@ WRITERS_EVICT
# The same, but that core 1 writes the first word, by sw x5,64(x0).
93029500 63180500 23205004 83230014 73000000 23205004 73000000

@ ENDLESS
# bne x10,x0,+12; lw x6,64(x0); ecall; jal x0,+0: core 0 ends, and core 1 jumps to itself for ever.
63160500 03230004 73000000 6f000000

@ EIGHT_WORK
# Three results of each core, at 96 + 4 * core, 128 + 16 * core and 384 + 16 * core, from two words that
# all cores load:
#
# - slli x5,x10,4; slli x6,x10,2; lw x7,68(x0);
# - lw x8,128(x5); add x8,x8,x7; add x8,x8,x10; sw x8,128(x5): a shared copy that becomes an owned one;
# - lw x9,384(x5): a block 16 after that one, which has its line, so that the owned copy goes back;
# - lw x11,72(x0); lw x12,96(x6); add x12,x12,x11; add x12,x12,x10; sw x12,96(x6): a word in a block of
# four cores, who take it from each other;
# - lw x9,128(x5); add x9,x9,x7; sw x9,384(x5): the line goes back two more times, each time from a shared
# copy;
# - ecall; and the two words, a00 and b00.
93124500 13132500 83234004 03a40208 33047400 3304a400 23a08208 83a40218 83258004 03260306 3306b600 3306a600 2320c306
83a40208 b3847400 23a09218 73000000 000a0000 000b0000

@ THREE_WORDS
# addi x5,x10,9; bne x10,x0,+20; sw x5,64(x0); sw x5,68(x0); sw x5,72(x0); ecall; lw x6,64(x0); lw x7,68(x0);
# addi x0,x0,0 twice; lw x8,72(x0); ecall: core 0 writes three words of a block, which core 1 reads, the last
# one after two instructions more.
93029500 631a0500 23205004 23225004 23245004 73000000 03230004 83234004 13000000 13000000 03248004 73000000

@ TWO_CORES
# Two cores, a limit of 10,000, sixteen words, and twelve bytes of `ONE_WORD`.
52545201 02 904e 10 0c

@ HANDED_OVER_STATE
# What `HANDED_OVER` leaves where core 1 reads what core 0 wrote, and core 0 what core 1 wrote.
core 0 exit retired 5 pc 00000014 | core 0 x5 00000007 | core 0 x6 00000001
core 1 exit retired 4 pc 00000020 | core 1 x7 00000007 | core 1 x10 00000001
mem 00000040 00000001
load 0 4 00000040 00000001 | load 1 2 00000040 00000007

@ READ
# What `HANDED_OVER` has come to where core 1 has just read what core 0 wrote.
cut 3 2
core 0 total retired 3 pc 0000000c | core 0 x5 00000007
core 1 total retired 2 pc 00000018 | core 1 x7 00000007 | core 1 x10 00000001
mem 00000040 00000007

@ UNWRITTEN
# And where core 0 is about to write: core 1 can't read before that.
cut 2 1
core 0 total retired 2 pc 00000008 | core 0 x5 00000007
core 1 total retired 1 pc 00000014 | core 1 x10 00000001";
