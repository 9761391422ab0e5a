//! The seven racing programs of `examples/`, and the steps of `docs/TUTORIAL.md`. What is wanted of runs and
//! recordings comes from `tests/reference` and `tests/tso_reference`, slow models of the tool; the answers to logs and
//! certificates that were damaged were worked out by hand.

/// What is made of each example, what is printed of that, and how it ends; then the steps of the lesson.
pub const EXAMPLES: &str = "\
@ HAND_OVER
# `examples/hand_over.s`.
631a0500 93027000 23205004 03230004 73000000 83230004 2320a004 73000000

@ LOST_UPDATE
# `examples/lost_update.s`.
83220004 93821200 23205004 73000000

@ STORE_BUFFERING
# `examples/store_buffering.s`.
13136500 93020008 b3826240 93031000 23207304 03ae0200 73000000

@ STORE_BUFFERING_FENCED
# `examples/store_buffering_fenced.s`.
13136500 93020008 b3826240 93031000 23207304 0f00f00f 03ae0200 73000000

@ PETERSON
# `examples/peterson.s`.
93022000 13132500 93431500 13942300 93041000 23209308 23247008 83250408 63860500 03268008 e30a76fe 83260009 93861600
2328d008 23200308 9382f2ff e39a02fc 73000000

@ FALSE_SHARING
# `examples/false_sharing.s`.
13132500 93023000 83230304 93831300 23207304 9382f2ff e39802fe 73000000

@ BARRIER
# `examples/barrier.s`.
93021500 13134500 23205304 93030008 13041000 2fa08300 93043000 83250008 e39e95fe 13030301 13060003 6314c300 13030000
83260304 73000000

@ HAND_OVER_RECORDING
# What `record --cores 2 --words 32 --choices 00000001010101010101010101010101` makes of it.
52545202 02904e20 20631a05 00930270 00232050 04032300 04730000 00832300 042320a0 04730000 00050401 04010301 02000301
01030201 010304

@ LOST_UPDATE_RECORDING
# What `record --cores 2 --words 32 --seed 0` makes of it.
52545202 02904e20 10832200 04938212 00232050 04730000 00040401 03010101 03000301 01030301 010103

@ LOST_UPDATE_LATER_RECORDING
# What `record --cores 2 --words 32 --seed 4` makes of it.
52545202 02904e20 10832200 04938212 00232050 04730000 00040400 01010003 01010301 00

@ STORE_BUFFERING_RECORDING
# What `record --cores 2 --words 64 --seed 0` makes of it.
52545202 02904e40 1c131365 00930200 08b38262 40930310 00232073 0403ae02 00730000 00070700 01050006 01010605 00

@ STORE_BUFFERING_FENCED_RECORDING
# What `record --cores 2 --words 64 --seed 0` makes of it.
52545202 02904e40 20131365 00930200 08b38262 40930310 00232073 040f00f0 0f03ae02 00730000 00080801 07010501 07000501
01050701 010507

@ PETERSON_RECORDING
# What `record --cores 2 --words 64 --seed 0` makes of it.
52545202 02904e40 48930220 00131325 00934315 00139423 00930410 00232093 08232470 08832504 08638605 00032680 08e30a76
fe832600 09938616 002328d0 08232003 089382f2 ffe39a02 fc730000 00283204 0d010803 01041001 09050111 04060008 06000505
00111900 07020208 06050602 1e110719 0202080d 04030215 201105

@ FALSE_SHARING_RECORDING
# What `record --cores 2 --words 32 --seed 1` makes of it.
52545202 02904e20 20131325 00930230 00832303 04938313 00232073 049382f2 ffe39802 fe730000 00121200 000000

@ BARRIER_RECORDING
# What `record --cores 3 --words 64 --seed 1` makes of it.
52545202 03904e40 3c930215 00131345 00232053 04930300 08130410 002fa083 00930430 00832500 08e39e95 fe130303 01130600
036314c3 00130300 00832603 04730000 000e0e0f 02060106 02020601 08020601 06000600 01010606 01010606 00010106 08010106
08

@ LOST
# The recording of the lesson: one of two counts is lost.
52545202 02904e20 10832200 04938212 00232050 04730000 00040401 03010101 03000301 01030301 010103

@ KEPT
# One choice is another, and no count is lost.
52545202 02904e20 10832200 04938212 00232050 04730000 00040400 01010003 01010301 00

@ LOST_CERTIFICATE
# The certificate of the first.
52545202 02904e20 10832200 04938212 00232050 04730000 00040401 03010101 03000301 01030301 01010301 03010200 010303

@ BUFFERED
# What `tsorecord --cores 2 --words 64 --seed 0` makes of `STORE_BUFFERING`: both loads are logged.
52545203 02904e40 1c131365 00930200 08b38262 40930310 00232073 0403ae02 00730000 00070700 00010600 010600

@ FENCED
# What it makes of `STORE_BUFFERING_FENCED`: one edge, and no logged load.
52545203 02904e40 20131365 00930200 08b38262 40930310 00232073 040f00f0 0f03ae02 00730000 00080800 01050007 0000

@ BROKEN_LOCK
# What it makes of `PETERSON`: a count is lost.
52545203 02904e40 48930220 00131325 00934315 00139423 00930410 00232093 08232470 08832504 08638605 00032680 08e30a76
fe832600 09938616 002328d0 08232003 089382f2 ffe39a02 fc730000 001a2603 0d010c03 01080601 02040600 080e0005 04000906
00010112 00020e00 0201

@ LOST_STATE
# How the run of `LOST` ends.
core 0 exit retired 4 pc 00000010 | core 0 x5 00000001
core 1 exit retired 4 pc 00000010 | core 1 x5 00000001 | core 1 x10 00000001
mem 00000040 00000001
load 0 1 00000040 00000000 | load 1 1 00000040 00000000

@ BUFFERED_STATE
# How the run of `BUFFERED` ends.
core 0 exit retired 7 pc 0000001c | core 0 x5 00000080 | core 0 x7 00000001
core 1 exit retired 7 pc 0000001c | core 1 x5 00000040 | core 1 x6 00000040 | core 1 x7 00000001 | core 1 x10 00000001
mem 00000040 00000001 | mem 00000080 00000001
load 0 6 00000080 00000000 | load 1 6 00000040 00000000

@ FENCED_STATE
# How the run of `FENCED` ends.
core 0 exit retired 8 pc 00000020 | core 0 x5 00000080 | core 0 x7 00000001
core 1 exit retired 8 pc 00000020 | core 1 x5 00000040 | core 1 x6 00000040 | core 1 x7 00000001 | core 1 x10 00000001
core 1 x28 00000001
mem 00000040 00000001 | mem 00000080 00000001
load 0 7 00000080 00000000 | load 1 7 00000040 00000001

@ BROKEN_LOCK_STATE
# How the run of `BROKEN_LOCK` ends.
core 0 exit retired 26 pc 00000048 | core 0 x7 00000001 | core 0 x8 00000004 | core 0 x9 00000001
core 0 x13 00000002
core 1 exit retired 38 pc 00000048 | core 1 x6 00000004 | core 1 x9 00000001 | core 1 x10 00000001
core 1 x13 00000003
mem 00000090 00000003
load 0 8 00000084 00000000 | load 0 10 00000090 00000000 | load 0 18 00000084 00000000 | load 0 20 00000090 00000001
load 1 8 00000080 00000001 | load 1 10 00000088 00000000 | load 1 12 00000080 00000001 | load 1 14 00000088 00000000
load 1 16 00000080 00000001 | load 1 18 00000088 00000000 | load 1 20 00000080 00000000 | load 1 22 00000090 00000001
load 1 30 00000080 00000000 | load 1 32 00000090 00000002

@ STORE_BUFFERING_STATE
# How the run of `STORE_BUFFERING` ends that has no store buffers.
core 0 exit retired 7 pc 0000001c | core 0 x5 00000080 | core 0 x7 00000001
core 1 exit retired 7 pc 0000001c | core 1 x5 00000040 | core 1 x6 00000040 | core 1 x7 00000001 | core 1 x10 00000001
core 1 x28 00000001
mem 00000040 00000001 | mem 00000080 00000001

$ record --cores 2 --words 32 --choices 00000001010101010101010101010101
< @HAND_OVER
= @HAND_OVER_RECORDING

$ print
< @HAND_OVER_RECORDING
> cores 2 limit 10000 words 32 image 32 | total 0 5 | total 1 4
> reduced 2 | edge 0:3 1:2 | edge 1:3 0:4
> regulated 2 vectors 2 edges | vector 0 1 1 3 2 | vector 1 0 1 3 4

$ run --cores 2 --words 32 --choices 00000001010101010101010101010101
< @HAND_OVER
> core 0 exit retired 5 pc 00000014 | core 0 x5 00000007 | core 0 x6 00000001
> core 1 exit retired 4 pc 00000020 | core 1 x7 00000007 | core 1 x10 00000001
> mem 00000040 00000001

$ record --cores 2 --words 32 --seed 0
< @LOST_UPDATE
= @LOST_UPDATE_RECORDING

$ print
< @LOST_UPDATE_RECORDING
> cores 2 limit 10000 words 32 image 16 | total 0 4 | total 1 4
> reduced 2 | edge 0:3 1:3 | edge 1:1 0:3
> regulated 2 vectors 2 edges | vector 0 1 1 3 3 | vector 1 0 1 1 3

$ run --cores 2 --words 32 --seed 0
< @LOST_UPDATE
> core 0 exit retired 4 pc 00000010 | core 0 x5 00000001
> core 1 exit retired 4 pc 00000010 | core 1 x5 00000001 | core 1 x10 00000001
> mem 00000040 00000001

$ record --cores 2 --words 32 --seed 4
< @LOST_UPDATE
= @LOST_UPDATE_LATER_RECORDING

$ print
< @LOST_UPDATE_LATER_RECORDING
> cores 2 limit 10000 words 32 image 16 | total 0 4 | total 1 4
> reduced 1 | edge 0:3 1:1
> regulated 1 vectors 1 edges | vector 0 1 1 3 1

$ run --cores 2 --words 32 --seed 4
< @LOST_UPDATE
> core 0 exit retired 4 pc 00000010 | core 0 x5 00000001
> core 1 exit retired 4 pc 00000010 | core 1 x5 00000002 | core 1 x10 00000001
> mem 00000040 00000002

$ record --cores 2 --words 64 --seed 0
< @STORE_BUFFERING
= @STORE_BUFFERING_RECORDING

$ print
< @STORE_BUFFERING_RECORDING
> cores 2 limit 10000 words 64 image 28 | total 0 7 | total 1 7
> reduced 1 | edge 0:6 1:5
> regulated 1 vectors 1 edges | vector 0 1 1 6 5

$ run --cores 2 --words 64 --seed 0
< @STORE_BUFFERING
> @STORE_BUFFERING_STATE

$ record --cores 2 --words 64 --seed 0
< @STORE_BUFFERING_FENCED
= @STORE_BUFFERING_FENCED_RECORDING

$ print
< @STORE_BUFFERING_FENCED_RECORDING
> cores 2 limit 10000 words 64 image 32 | total 0 8 | total 1 8
> reduced 2 | edge 0:5 1:7 | edge 1:5 0:7
> regulated 2 vectors 2 edges | vector 0 1 1 5 7 | vector 1 0 1 5 7

$ run --cores 2 --words 64 --seed 0
< @STORE_BUFFERING_FENCED
> core 0 exit retired 8 pc 00000020 | core 0 x5 00000080 | core 0 x7 00000001 | core 0 x28 00000001
> core 1 exit retired 8 pc 00000020 | core 1 x5 00000040 | core 1 x6 00000040 | core 1 x7 00000001
> core 1 x10 00000001 | core 1 x28 00000001
> mem 00000040 00000001 | mem 00000080 00000001

$ record --cores 2 --words 64 --seed 0
< @PETERSON
= @PETERSON_RECORDING

$ print
< @PETERSON_RECORDING
> cores 2 limit 10000 words 64 image 72 | total 0 40 | total 1 50
> reduced 8 | edge 0:8 1:6 | edge 0:13 1:12 | edge 0:30 1:17 | edge 0:37 1:42 | edge 1:8 0:13 | edge 1:12 0:16
> edge 1:21 0:32 | edge 1:38 0:37
> regulated 4 vectors 8 edges | vector 0 1 2 8 6 5 6 | vector 0 1 2 30 17 7 25 | vector 1 0 2 8 13 4 3
> vector 1 0 2 21 32 17 5

$ run --cores 2 --words 64 --seed 0
< @PETERSON
> core 0 exit retired 40 pc 00000048 | core 0 x7 00000001 | core 0 x8 00000004 | core 0 x9 00000001
> core 0 x11 00000001 | core 0 x13 00000003
> core 1 exit retired 50 pc 00000048 | core 1 x6 00000004 | core 1 x9 00000001 | core 1 x10 00000001
> core 1 x13 00000004
> mem 00000090 00000004

$ record --cores 2 --words 32 --seed 1
< @FALSE_SHARING
= @FALSE_SHARING_RECORDING

$ print
< @FALSE_SHARING_RECORDING
> cores 2 limit 10000 words 32 image 32 | total 0 18 | total 1 18
> reduced 0
> regulated 0 vectors 0 edges

$ run --cores 2 --words 32 --seed 1
< @FALSE_SHARING
> core 0 exit retired 18 pc 00000020 | core 0 x7 00000003
> core 1 exit retired 18 pc 00000020 | core 1 x6 00000004 | core 1 x7 00000003 | core 1 x10 00000001
> mem 00000040 00000003 | mem 00000044 00000003

$ record --cores 3 --words 64 --seed 1
< @BARRIER
= @BARRIER_RECORDING

$ print
< @BARRIER_RECORDING
> cores 3 limit 10000 words 64 image 60 | total 0 14 | total 1 14 | total 2 15
> reduced 4 | edge 0:6 2:6 | edge 1:6 0:6 | edge 2:6 0:8 | edge 2:6 1:8
> regulated 4 vectors 4 edges | vector 0 2 1 6 6 | vector 1 0 1 6 6 | vector 2 0 1 6 8 | vector 2 1 1 6 8

$ run --cores 3 --words 64 --seed 1
< @BARRIER
> core 0 exit retired 14 pc 0000003c | core 0 x5 00000001 | core 0 x6 00000010 | core 0 x7 00000080
> core 0 x8 00000001 | core 0 x9 00000003 | core 0 x11 00000003 | core 0 x12 00000030 | core 0 x13 00000002
> core 1 exit retired 14 pc 0000003c | core 1 x5 00000002 | core 1 x6 00000020 | core 1 x7 00000080
> core 1 x8 00000001 | core 1 x9 00000003 | core 1 x10 00000001 | core 1 x11 00000003 | core 1 x12 00000030
> core 1 x13 00000003
> core 2 exit retired 15 pc 0000003c | core 2 x5 00000003 | core 2 x7 00000080 | core 2 x8 00000001
> core 2 x9 00000003 | core 2 x10 00000002 | core 2 x11 00000003 | core 2 x12 00000030 | core 2 x13 00000001
> mem 00000040 00000001 | mem 00000050 00000002 | mem 00000060 00000003 | mem 00000080 00000003

# The steps of the lesson.
$ record --cores 2 --words 32 --choices 000001
< @LOST_UPDATE
= @LOST

$ run --cores 2 --words 32 --choices 000001 --loads
< @LOST_UPDATE
> @LOST_STATE

$ print
< @LOST
> cores 2 limit 10000 words 32 image 16 | total 0 4 | total 1 4
> reduced 2 | edge 0:3 1:3 | edge 1:1 0:3
> regulated 2 vectors 2 edges | vector 0 1 1 3 3 | vector 1 0 1 1 3

$ record --cores 2 --words 32 --choices 000101
< @LOST_UPDATE
= @KEPT

$ print
< @KEPT
> cores 2 limit 10000 words 32 image 16 | total 0 4 | total 1 4
> reduced 1 | edge 0:3 1:1
> regulated 1 vectors 1 edges | vector 0 1 1 3 1

$ run --cores 2 --words 32 --choices 000101
< @LOST_UPDATE
> core 0 exit retired 4 pc 00000010 | core 0 x5 00000001
> core 1 exit retired 4 pc 00000010 | core 1 x5 00000002 | core 1 x10 00000001
> mem 00000040 00000002

$ replay --loads
< @LOST
> @LOST_STATE

$ replay --log regulated --loads
< @LOST
> @LOST_STATE

$ replay --threads 2 --loads
< @LOST
> @LOST_STATE

# The edge from core 1 is left out; it is turned round; core 0 is said to have retired one more.
$ replay
< 52545202 02904e20 10832200 04938212 00232050 04730000 00040400 01030003 01010303 01010103
! 6 rtr: no order from 0:3 to 1:1

$ replay --threads 2
< 52545202 02904e20 10832200 04938212 00232050 04730000 00040400 01030003 01010303 01010103
! 6 rtr: no order from 0:3 to 1:1

$ replay
< 52545202 02904e20 10832200 04938212 00232050 04730000 00040401 03010101 01000301 01030301 010103
! 4 rtr: stuck at 2 0

$ replay
< 52545202 02904e20 10832200 04938212 00232050 04730000 00050401 03010101 03000301 01030301 010103
! 5 rtr: core 0 stops at 4

$ certify
< @LOST
= @LOST_CERTIFICATE

$ check
< @LOST_CERTIFICATE
> least 2 edges

# The clock of 0:3 doesn't know of 1:1.
$ check
< 52545202 02904e20 10832200 04938212 00232050 04730000 00040401 03010101 03000301 01030301 01010301 03000200 010303
! 7 rtr: clock 1 of core 0 is wrong

# From the load of core 1 to the store that it read; then all of core 1, which doesn't need core 0's load.
$ replay --loads
< @HAND_OVER_RECORDING
> @HANDED_OVER_STATE

$ at --core 1 --count 2
< @HAND_OVER_RECORDING
> @READ

$ at --core 0 --count 3 --latest
< @HAND_OVER_RECORDING
> @UNWRITTEN

$ at --core 0 --count 4 --latest
< @HAND_OVER_RECORDING
> cut 3 4
> core 0 total retired 3 pc 0000000c | core 0 x5 00000007
> core 1 exit retired 4 pc 00000020 | core 1 x7 00000007 | core 1 x10 00000001
> mem 00000040 00000001

# Stores that wait in their cores, a FENCE between store and load, and a lock that needs one.
$ run --cores 2 --words 64 --seed 0 --loads
< @STORE_BUFFERING
> @STORE_BUFFERING_STATE
> load 0 6 00000080 00000000 | load 1 6 00000040 00000001

$ tsorun --cores 2 --words 64 --seed 0 --loads
< @STORE_BUFFERING
> @BUFFERED_STATE

$ tsorecord --cores 2 --words 64 --seed 0
< @STORE_BUFFERING
= @BUFFERED

$ tsoreplay --loads
< @BUFFERED
> @BUFFERED_STATE

$ tsorun --cores 2 --words 64 --seed 0 --loads
< @STORE_BUFFERING_FENCED
> @FENCED_STATE

$ tsorecord --cores 2 --words 64 --seed 0
< @STORE_BUFFERING_FENCED
= @FENCED

$ tsoreplay --loads
< @FENCED
> @FENCED_STATE

$ tsorun --cores 2 --words 64 --seed 0 --loads
< @PETERSON
> @BROKEN_LOCK_STATE

$ tsorecord --cores 2 --words 64 --seed 0
< @PETERSON
= @BROKEN_LOCK

$ tsoreplay --loads
< @BROKEN_LOCK
> @BROKEN_LOCK_STATE";
