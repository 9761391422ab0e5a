//! Images that the tool makes itself, and images out of ELF files.

/// What `gen` writes and `soak` tells, and what they refuse; then what the commands make of ELF files and of flat
/// images that look like them.
pub const GENERATED: &str = "\
@ UNREAD
# The input that stands before `gen` and `soak`, which take none.
00

@ LOCK_500
# Peterson's lock, taken 500 times by each core.
9302401f 13134500 93431500 13944300 93041000 23209310 23207012 83250410 63860500 03260012 e30a76fe 83260013 93861600
2328d012 23200310 9382f2ff e39a02fc 73000000

$ gen --shape lock --number 500
< @UNREAD
= @LOCK_500

$ gen --shape lock --number 0
< @UNREAD
! 1 rtr: usage

$ gen --shape lock --number 2048
< @UNREAD
! 1 rtr: usage

$ gen --shape mix
< @UNREAD
! 1 rtr: usage

$ soak --shape mix
< @UNREAD
! 1 rtr: usage

# One core takes the lock once, and waits for no one.
$ soak --shape lock --number 1
< @UNREAD
> shape lock number 1 cores 1
> retired 16
> reduced 0
> regulated 0 vectors 0 edges
> changed 2 words

# The lock that is taken most often: a core by itself retires 6 instructions and 10 for each time.
$ soak --shape lock --number 2047 --limit 100000
< @UNREAD
> shape lock number 2047 cores 1
> retired 20476
> reduced 0
> regulated 0 vectors 0 edges
> changed 2 words

$ soak --shape lock --number 2047 --cores 2 --limit 100000
< @UNREAD
> shape lock number 2047 cores 2
> retired 98018
> reduced 13539
> regulated 6761 vectors 13539 edges
> changed 2 words

# Its 72 bytes fill 18 words, and a memory has whole blocks of 4.
$ soak --shape lock --number 1 --words 4
< @UNREAD
! 2 rtr: input too large

$ soak --shape lock --number 1 --words 16
< @UNREAD
! 2 rtr: input too large

# In a memory of 20 words every address of the lock but those of its instructions lies past the memory.
$ soak --shape lock --number 1 --words 20
< @UNREAD
> shape lock number 1 cores 1
> retired 5
> reduced 0
> regulated 0 vectors 0 edges
> changed 0 words

@ PROGRAM
# ADDI x5, x0, 1 and ECALL at address 16, where the program begins.
7f454c46 01010100 0000000000000000 0200 f300 01000000 10000000 34000000 00000000 00000000 3400 2000 0100 0000 0000
0000 01000000 54000000 10000000 10000000 08000000 08000000 05000000 04000000 93021000 73000000

@ CUT_PROGRAM
# The first 51 bytes of it.
7f454c46 01010100 0000000000000000 0200 f300 01000000 10000000 34000000 00000000 00000000 3400 2000 0100 0000 0000 00

@ OTHER_MACHINE
# The same for another machine.
7f454c46 01010100 0000000000000000 0200 0300 01000000 10000000 34000000 00000000 00000000 3400 2000 0100 0000 0000
0000 01000000 54000000 10000000 10000000 08000000 08000000 05000000 04000000 93021000 73000000

@ CUT_SEGMENT
# The same with its last byte lost.
7f454c46 01010100 0000000000000000 0200 f300 01000000 10000000 34000000 00000000 00000000 3400 2000 0100 0000 0000
0000 01000000 54000000 10000000 10000000 08000000 08000000 05000000 04000000 93021000 730000

@ TWICE
# The same with two headers, of which the second loads the last four bytes again, at address 20.
7f454c46 01010100 0000000000000000 0200 f300 01000000 10000000 34000000 00000000 00000000 3400 2000 0200 0000 0000
0000 01000000 74000000 10000000 10000000 08000000 08000000 05000000 04000000 01000000 78000000 14000000 14000000
04000000 04000000 05000000 04000000 93021000 73000000

@ OTHER_ENTRY
# The same where it begins at address 18.
7f454c46 01010100 0000000000000000 0200 f300 01000000 12000000 34000000 00000000 00000000 3400 2000 0100 0000 0000
0000 01000000 54000000 10000000 10000000 08000000 08000000 05000000 04000000 93021000 73000000

@ FLAT
# The flat image of the program.
6f000001 000000000000000000000000 93021000 73000000

@ ENDS
# How a run of either ends.
core 0 exit retired 3 pc 00000018 | core 0 x5 00000001

@ RECORDED
# The recording of a run of either.
52545202 01 904e 08 18 6f000001 000000000000000000000000 93021000 73000000 03

@ LINKED
# What GNU ld 2.40 made of this program, by
# riscv64-unknown-elf-as -march=rv32i count.s -o count.o
# riscv64-unknown-elf-ld -m elf32lriscv -N -s -Ttext=10 -Tdata=40 count.o -o count.elf
#
# .globl  _start
# _start: lw      x5, counter
# addi    x5, x5, 1
# sw      x5, counter, x6
# ecall
# .data
# .word   7
# .bss
# counter: .zero  8
7f454c46 01010100 00000000 00000000 0200f300 01000000 10000000 34000000 f0000000 00000000 34002000 02002800 06000500
03000070 a8000000 00000000 00000000 1a000000 00000000 04000000 01000000 01000000 74000000 10000000 10000000 34000000
3c000000 07000000 04000000 83224004 93821200 23225004 73000000 00000000 00000000 00000000 00000000 00000000 00000000
00000000 00000000 07000000 41190000 00726973 63760001 0f000000 05727633 32693270 3100002e 73687374 72746162 002e7465
7874002e 64617461 002e6273 73002e72 69736376 2e617474 72696275 74657300 00000000 00000000 00000000 00000000 00000000
00000000 00000000 00000000 00000000 00000000 0b000000 01000000 07000000 10000000 74000000 10000000 00000000 00000000
04000000 00000000 11000000 01000000 03000000 40000000 a4000000 04000000 00000000 00000000 01000000 00000000 17000000
08000000 03000000 44000000 a8000000 08000000 00000000 00000000 01000000 00000000 1c000000 03000070 00000000 00000000
a8000000 1a000000 00000000 00000000 01000000 00000000 01000000 03000000 00000000 00000000 c2000000 2e000000 00000000
00000000 01000000 00000000

@ LINKED_ENDS
# How a run of it ends.
core 0 exit retired 5 pc 00000020 | core 0 x5 00000001
mem 00000044 00000001

# What the commands make of ELF files and of flat images that look like them.
$ run --elf --words 8
< @PROGRAM
> @ENDS

$ run --words 8
< @FLAT
> @ENDS

$ record --elf --words 8
< @PROGRAM
= @RECORDED

$ record --words 8
< @FLAT
= @RECORDED

# The jump to the entry retires too.
$ run --elf --words 32
< @LINKED
> @LINKED_ENDS

# The file has 92 bytes, and a memory of 8 words 32. Without the flag it is too long.
$ run --words 8
< @PROGRAM
! 2 rtr: input too large

$ run --elf --words 8
< @CUT_PROGRAM
! 11 rtr: not an ELF file

$ record --elf
< @OTHER_MACHINE
! 11 rtr: ELF header not accepted

$ run --elf
< @CUT_SEGMENT
! 11 rtr: ELF segment 0 not accepted

$ run --elf --words 4
< @PROGRAM
! 11 rtr: ELF segment 0 outside memory

$ record --elf
< @TWICE
! 11 rtr: ELF segment 1 overlaps

$ run --elf
< @OTHER_ENTRY
! 11 rtr: ELF entry not accepted";
