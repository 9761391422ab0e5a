//! Recordings of runs. What each row wants was worked out by hand: which accesses conflict and which edges
//! imply the others, from the steps that the choices take, what is known from the messages that these bring,
//! and the bytes from the formats.

/// The rows.
const RECORDINGS: &str = "\
@ READ_IN_TURN
# addi x5,x0,1; beq x10,x5,+16; bne x10,x0,+24; sw x5,64(x0); ecall; lw x6,64(x0); sw x5,128(x0); ecall;
# lw x7,128(x0); lw x6,64(x0); ecall: core 0 writes a word. Core 1 reads that word and writes another, and
# core 2 reads the other and then the first.
93021000 63085500 631c0500 23205004 73000000 03230004 23205008 73000000 83230008 03230004 73000000

@ OWN_WORDS_LOGS
# What is said of a recording of `OWN_WORDS`, whose cores share no word.
cores 2 limit 10000 words 16 image 16 | total 0 4 | total 1 4
reduced 0
regulated 0 vectors 0 edges

@ SECOND_LAST_LOGS
# What is said where core 1 stores last to the word of `OWN_BYTES` or `ONE_WORD`.
cores 2 limit 10000 words 16 image 12 | total 0 3 | total 1 3
reduced 1 | edge 0:2 1:2
regulated 1 vectors 1 edges | vector 0 1 1 2 2

@ WRITERS_EVICT_LOGS
# What is said of a recording of `WRITER_EVICTS` or `WRITERS_EVICT` where core 1 comes to the word after core 0.
cores 2 limit 10000 words 96 image 28 | total 0 5 | total 1 4
reduced 1 | edge 0:3 1:3
regulated 1 vectors 1 edges | vector 0 1 1 3 3

# Two words of one block: no edge, whoever has the block first, and also where core 1 takes it from core 0
# between the store and the load of core 0.
$ record --cores 2 --words 16 --seed 5
< @OWN_WORDS
= 52545202 02 904e 10 10
= @OWN_WORDS
= 0404
= 00 * 4
> @OWN_WORDS_LOGS

$ record --cores 2 --words 16 --choices 0000010101010101010100 --seed 9
< @OWN_WORDS
= 52545202 02 904e 10 10
= @OWN_WORDS
= 0404
= 00 * 4
> @OWN_WORDS_LOGS

# Core 0 stores at 3, core 1 loads at 2 and stores at 3, core 0 loads at 4. Three pairs conflict, and the
# order of the two stores is implied by core 1's load.
$ record --cores 2 --words 32 --choices 00000001010101010101010101010101
< @HANDED_OVER
= 52545202 02 904e 20 20
= @HANDED_OVER
= 0504 01 040103 01 020003 01 010302 01 010304
> cores 2 limit 10000 words 32 image 32 | total 0 5 | total 1 4
> reduced 2 | edge 0:3 1:2 | edge 1:3 0:4
> regulated 2 vectors 2 edges | vector 0 1 1 3 2 | vector 1 0 1 3 4

# Bytes of one word conflict. Core 0's request is served first.
$ record --cores 2 --words 16 --choices 000000000000000000000000
< @OWN_BYTES
= 52545202 02 904e 10 0c
= @OWN_BYTES
= 0303 00 01 020002 01 010202 00
> @SECOND_LAST_LOGS

# Readers ordered through another word. The choices let core 1 end first, and then core 2; so core 1's
# load at 3 comes before core 0's store at 4 by way of its store and core 2's loads.
$ record --cores 3 --words 64 --choices 010101020201020201010101010101010101010101
< @READ_IN_TURN
= 52545202 03 904e 40 2c
= @READ_IN_TURN
= 050506 01 040205 00 01 040104 00 00 00 01 010404 01 010504 00
> cores 3 limit 10000 words 64 image 44 | total 0 5 | total 1 5 | total 2 6
> reduced 2 | edge 1:4 2:4 | edge 2:5 0:4
> regulated 2 vectors 2 edges | vector 1 2 1 4 4 | vector 2 0 1 5 4

# The fifth choice lets the request of one core or of the other be first.
$ record --cores 2 --words 16 --choices 0000000000
< @ONE_WORD
= 52545202 02 904e 10 0c
= @ONE_WORD
= 0303 00 01 020002 01 010202 00
> @SECOND_LAST_LOGS

$ record --cores 2 --words 16 --choices 0000000001
< @ONE_WORD
= 52545202 02 904e 10 0c
= @ONE_WORD
= 0303 01 020102 00 00 01 010202
> cores 2 limit 10000 words 16 image 12 | total 0 3 | total 1 3
> reduced 1 | edge 1:2 0:2
> regulated 1 vectors 1 edges | vector 1 0 1 2 2

# Each core adds to one word: two atomic memory operations conflict.
$ record --cores 2 --words 16 --choices 0000000000000000000000000000
< @SUM
= 52545202 02 904e 10 10
= @SUM
= 0404 00 01 030003 01 010303 00
> cores 2 limit 10000 words 16 image 16 | total 0 4 | total 1 4
> reduced 1 | edge 0:3 1:3
> regulated 1 vectors 1 edges | vector 0 1 1 3 3

# A read by the first writer between two writes: core 1 loads at 2, core 0 stores at 3 and loads at 4, core
# 1 stores at 3. No edge leaves the first write.
$ record --cores 2 --words 32 --choices 010101010000000101010100
< @HANDED_OVER
= 52545202 02 904e 20 20
= @HANDED_OVER
= 0504 01 030102 01 030004 01 010403 01 010203
> cores 2 limit 10000 words 32 image 32 | total 0 5 | total 1 4
> reduced 2 | edge 0:4 1:3 | edge 1:2 0:3
> regulated 2 vectors 2 edges | vector 0 1 1 4 3 | vector 1 0 1 2 3

# PutS is stalled while Inv takes core 1's read copy back: its read goes home with the answer to Inv.
$ record --cores 2 --words 96 --choices 01010101010000000000000000
< @READER_EVICTS
= 52545202 02 904e 60 1c
= @READER_EVICTS
= 0405 01 030103 00 00 01 010303
> cores 2 limit 10000 words 96 image 28 | total 0 4 | total 1 5
> reduced 1 | edge 1:3 0:3
> regulated 1 vectors 1 edges | vector 1 0 1 3 3

# PutM is stalled while core 1's load, or its store, is forwarded to core 0.
$ record --cores 2 --words 96 --choices 00000001010101010001000000
< @WRITER_EVICTS
= 52545202 02 904e 60 1c
= @WRITER_EVICTS
= 0504 00 01 030003 01 010303 00
> @WRITERS_EVICT_LOGS

$ record --cores 2 --words 96 --choices 00000001010101010001000000
< @WRITERS_EVICT
= 52545202 02 904e 60 1c
= @WRITERS_EVICT
= 0504 00 01 030003 01 010303 00
> @WRITERS_EVICT_LOGS

# Three stores and then three loads: all stores come first, or the third one after two of the loads, when
# core 1 gives its read copy up again. The rises are 3 and 3, 1 and 1, 3 and 1.
$ record --cores 2 --words 32 --choices 00000001010000
< @THREE_WORDS
= 52545202 02 904e 20 30
= @THREE_WORDS
= 0608 00 03 030003 010001 030001 01 0303030101 00
> cores 2 limit 10000 words 32 image 48 | total 0 6 | total 1 8
> reduced 3 | edge 0:3 1:3 | edge 0:4 1:4 | edge 0:5 1:7
> regulated 1 vectors 3 edges | vector 0 1 3 3 3 1 1

$ record --cores 2 --words 32 --choices 000000010100010101010101010101010001010101
< @THREE_WORDS
= 52545202 02 904e 20 30
= @THREE_WORDS
= 0608 00 03 030003 010001 030001 02 0203030101 010507 00
> cores 2 limit 10000 words 32 image 48 | total 0 6 | total 1 8
> reduced 3 | edge 0:3 1:3 | edge 0:4 1:4 | edge 0:5 1:7
> regulated 2 vectors 3 edges | vector 0 1 2 3 3 1 1 | vector 0 1 1 5 7

# Core 0 ends at the limit with its ECALL, and core 1 is stopped by it. No core stores anything.
$ record --cores 2 --limit 3 --words 32 --seed 3
< @ENDLESS
= 52545202 02 03 20 10
= @ENDLESS
= 0303
= 00 * 4
> cores 2 limit 3 words 32 image 16 | total 0 3 | total 1 3
> reduced 0
> regulated 0 vectors 0 edges

# Sixteen cores have 240 pairs in each log, and the reduced one has a number of edges for each target.
$ record --cores 16
< @END
= 52545202 10 904e 808001 04
= @END
= 01 01 01 01 01 01 01 01 01 01 01 01 01 01 01 01
= 00 * 256
> cores 16 limit 10000 words 16384 image 4 | total 0 1 | total 1 1 | total 2 1 | total 3 1 | total 4 1 | total 5 1
> total 6 1 | total 7 1 | total 8 1 | total 9 1 | total 10 1 | total 11 1 | total 12 1 | total 13 1 | total 14 1
> total 15 1
> reduced 0
> regulated 0 vectors 0 edges

# Eight have 56.
$ record --cores=8 --limit=1 --words=4 --choices=ff0007 --seed=0
< @END
= 52545202 08 01 04 04
= @END
= 01 01 01 01 01 01 01 01
= 00 * 64
> cores 8 limit 1 words 4 image 4 | total 0 1 | total 1 1 | total 2 1 | total 3 1 | total 4 1 | total 5 1 | total 6 1
> total 7 1
> reduced 0
> regulated 0 vectors 0 edges

# Eight cores that share blocks, upgrade and evict: each word that is written belongs to one core, and so
# there is no edge.
$ record --cores 8 --words 128 --seed 1
< @EIGHT_WORK
= 52545202 08 904e 8001 4c
= @EIGHT_WORK
= 11 11 11 11 11 11 11 11
= 00 * 64
> cores 8 limit 10000 words 128 image 76 | total 0 17 | total 1 17 | total 2 17 | total 3 17 | total 4 17 | total 5 17
> total 6 17 | total 7 17
> reduced 0
> regulated 0 vectors 0 edges";

/// The table.
pub fn recordings() -> &'static str {
    RECORDINGS
}
