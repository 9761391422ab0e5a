//! Commands of a debugger's user, and what is told: on the recording of a lock, in the order of a session of gdb,
//! and on one of two cores.

/// A command, and what is told.
pub struct Told {
    pub command: &'static str,
    pub told: &'static str,
}

macro_rules! told {
    ($command:literal => $told:expr) => {
        Told { command: $command, told: $told }
    };
}

/// Where the place is and goes, what comes before what, and what is asked on the way.
pub static PLACES: [Told; 25] = [
    told!("cut" => "cut 32 26 32 26\n"),
    told!("when" =>
        "core 0: 32 of 242, pc 00000024\n\
        core 1: 26 of 264, pc 00000024\n\
        core 2: 32 of 194, pc 00000098\n\
        core 3: 26 of 198, pc 00000024\n"),
    told!("info" =>
        "cores 4, limit 10000, words 16384\n\
        log reduced, edges 184\n\
        core 0: retired 242, exit\n\
        core 1: retired 264, exit\n\
        core 2: retired 194, exit\n\
        core 3: retired 198, exit\n"),
    told!("edges 2:33" => "2:33 pc 00000098 load 000010f8 00000001\n"),
    told!("conflicts 2:33" =>
        "2:33 pc 00000098 load 000010f8 00000001\n  \
        later   3:34 pc 00000094 store 000010f8 00000001 -> 00000002\n"),
    told!("writer 4344" => "2:32 pc 00000094 store 000010f8 00000000 -> 00000001\n"),
    told!("readers 4344" => "no read since the last write\n"),
    told!("earliest 2" => "cut 0 0 32 0\n"),
    told!("latest 2" => "cut 36 36 32 28\n"),
    told!("goto 3:100" => "cut 109 97 107 100\n"),
    told!("edges 3:101" => "3:101 pc 0000001c\n"),
    told!("order 0:30 1:60" => "before\n"),
    told!("order 1:60 0:30" => "after\n"),
    told!("order 1:60 1:60" => "same\n"),
    told!("order 0:1 1:1" => "unordered\n"),
    told!("goto 1:174" => "cut 165 174 157 159\n"),
    told!("readers 4344" =>
        "2:155 pc 00000098 load 000010f8 0000000d\n\
        1:174 pc 0000008c load 000010f8 0000000d\n"),
    told!("decision 2:35 3:29" => "cut 36 36 34 28\n"),
    told!("decision 2:35 0:36" => "no decision: the log says more of their order\n"),
    told!("other 0:111 2:109" =>
        "core 0: retired 226, exit; recorded 242, exit\n\
        core 1: retired 232, exit; recorded 264, exit\n\
        core 2: retired 182, exit; recorded 194, exit\n\
        core 3: retired 150, exit; recorded 198, exit\n\
        word 0000110c: 0000000b, recorded 00000011\n"),
    told!("other 2:35 0:36" => "no decision: the log says more of their order\n"),
    told!("decisions" =>
        "19 this way, 19 the other: 3:45 pc 00000024 amo 000010fc 00000001 -> 00000001 \
        before 2:67 pc 000000a0 amo 000010fc 00000001 -> 00000000\n\
        19 this way, 19 the other: 3:37 pc 000000a0 amo 000010fc 00000001 -> 00000000 \
        before 2:59 pc 00000024 amo 000010fc 00000000 -> 00000001\n\
        146 this way, 0 the other: 3:171 pc 00000024 amo 000010fc 00000001 -> 00000001 \
        before 2:173 pc 00000024 amo 000010fc 00000001 -> 00000001\n"),
    told!("goto 0 0 33 0" => "cut 0 0 33 0\n"),
    told!("goto 37 0 0 0" => "rtr_gdb: not closed; the least closed cut that contains it is 37 37 35 29\n"),
    told!(" cut " => "cut 0 0 33 0\n"),
];

/// Cuts with names: one is given twice, and means the later cut.
pub static MARKED: [Told; 10] = [
    told!("marks" => "no mark\n"),
    told!("mark here" => "cut 32 26 32 26\n"),
    told!("goto 1:174" => "cut 165 174 157 159\n"),
    told!("mark there" => "cut 165 174 157 159\n"),
    told!("goto here" => "cut 32 26 32 26\n"),
    told!("marks" => "here: 32 26 32 26\nthere: 165 174 157 159\n"),
    told!("earliest 2" => "cut 0 0 32 0\n"),
    told!("mark here" => "cut 0 0 32 0\n"),
    told!("marks" => "there: 165 174 157 159\nhere: 0 0 32 0\n"),
    told!("goto there" => "cut 165 174 157 159\n"),
];

/// What is told behind the name of a command that isn't known.
macro_rules! unknown {
    ($command:literal, $name:literal) => {
        told!($command => concat!("rtr_gdb: no command '", $name,
            "'; monitor takes cut, when, goto, mark, marks, earliest, latest, last, decision, other, lead, slack, ",
            "why, edges, order, conflicts, writer, readers, history, decisions, trace, calls and info\n"))
    };
}

/// How a command goes.
macro_rules! goes {
    ($command:literal => $form:literal) => {
        told!($command => concat!("rtr_gdb: the command is monitor ", $form, "\n"))
    };
}

/// That an instruction isn't there.
macro_rules! lacks {
    ($command:literal => $instr:literal) => {
        told!($command => concat!("rtr_gdb: no instruction ", $instr, "\n"))
    };
}

/// Commands that aren't known, or that name what isn't there.
pub static REFUSED: [Told; 49] = [
    unknown!("", ""),
    unknown!("nonsense 1", "nonsense"),
    goes!("cut 1" => "cut"),
    told!("goto" => "rtr_gdb: no such counts: goto takes one for each core, at most its total\n"),
    told!("goto 1 2 3" => "rtr_gdb: no such counts: goto takes one for each core, at most its total\n"),
    told!("goto 1 1 200 1" => "rtr_gdb: no such counts: goto takes one for each core, at most its total\n"),
    goes!("goto x y" => "goto C:N, goto N N .. or goto NAME"),
    told!("goto 00:1" => "rtr_gdb: no mark '00:1'; goto takes C:N, N N .. or the name of a mark\n"),
    goes!("mark 5" => "mark NAME, a name that is no C:N and no count"),
    goes!("mark 1:5" => "mark NAME, a name that is no C:N and no count"),
    goes!("mark" => "mark NAME, a name that is no C:N and no count"),
    goes!("marks 1" => "marks"),
    lacks!("goto 4:1" => "4:1"),
    lacks!("goto 0:0" => "0:0"),
    lacks!("goto 0:243" => "0:243"),
    told!("earliest 4" => "rtr_gdb: no core 4\n"),
    goes!("latest -1" => "latest C"),
    goes!("latest 256" => "latest C"),
    told!("lead 4" => "rtr_gdb: no core 4\n"),
    goes!("lead" => "lead C or lead all"),
    told!("slack 4" => "rtr_gdb: no core 4\n"),
    goes!("slack" => "slack C"),
    goes!("order 0:1" => "order C:N C:N"),
    lacks!("order 0:1 4:1" => "4:1"),
    goes!("decision 0:1" => "decision C:N C:N"),
    lacks!("decision 0:0 1:1" => "0:0"),
    lacks!("decision 0:242 2:195" => "2:195"),
    lacks!("decision 0:242 4:1" => "4:1"),
    goes!("decisions 0" => "decisions"),
    goes!("other 0:1" => "other C:N C:N"),
    lacks!("other 0:0 1:1" => "0:0"),
    lacks!("other 0:242 4:1" => "4:1"),
    goes!("when 1" => "when"),
    goes!("info 1" => "info"),
    lacks!("edges 0:0" => "0:0"),
    goes!("edges" => "edges C:N"),
    lacks!("conflicts 2:195" => "2:195"),
    goes!("conflicts 1" => "conflicts C:N"),
    lacks!("why 0:243" => "0:243"),
    goes!("why 1" => "why C:N"),
    goes!("writer 0X10f8" => "writer ADDR"),
    goes!("readers 4294967296" => "readers ADDR"),
    goes!("history" => "history ADDR, history ADDR writes or history ADDR core C"),
    goes!("history 64 reads" => "history ADDR, history ADDR writes or history ADDR core C"),
    goes!("history 64 core" => "history ADDR, history ADDR writes or history ADDR core C"),
    goes!("last x" => "last ADDR"),
    lacks!("trace 2:195" => "2:195"),
    goes!("trace 2:1 x" => "trace C:N or trace C:N K"),
    goes!("calls" => "calls ADDR"),
];

/// What is asked where core 0 has stored to word 16 and core 1 has loaded it: on the recording of two cores.
pub static RUN: [Told; 34] = [
    told!("history 64" =>
        "+ 0:3 pc 00000008 store 00000040 00000000 -> 00000007\n\
        + 1:2 pc 00000014 load 00000040 00000007\n\
        + 1:3 pc 00000018 store 00000040 00000007 -> 00000001\n\
        + 0:4 pc 0000000c load 00000040 00000001\n"),
    told!("history 64 writes" =>
        "+ 0:3 pc 00000008 store 00000040 00000000 -> 00000007\n\
        + 1:3 pc 00000018 store 00000040 00000007 -> 00000001\n"),
    told!("writer 64" => "no write: the opening value\n"),
    told!("goto 1:2" => "cut 3 2\n"),
    told!("history 64 core 1" =>
        "  1:2 pc 00000014 load 00000040 00000007\n\
        + 1:3 pc 00000018 store 00000040 00000007 -> 00000001\n"),
    told!("history 64 core 2" => "no access\n"),
    told!("other 0:3 1:2" =>
        "core 0: retired 5, exit; recorded 5, exit\n\
        core 1: retired 4, exit; recorded 4, exit\n\
        no word differs\n"),
    told!("history 0x40" =>
        "  0:3 pc 00000008 store 00000040 00000000 -> 00000007\n  \
        1:2 pc 00000014 load 00000040 00000007\n\
        + 1:3 pc 00000018 store 00000040 00000007 -> 00000001\n\
        + 0:4 pc 0000000c load 00000040 00000001\n"),
    told!("history 0x44" => "no access\n"),
    told!("writer 67" => "0:3 pc 00000008 store 00000040 00000000 -> 00000007\n"),
    told!("readers 0x40" => "1:2 pc 00000014 load 00000040 00000007\n"),
    told!("edges 1:2" =>
        "1:2 pc 00000014 load 00000040 00000007\n  \
        after  0:3 pc 00000008 store 00000040 00000000 -> 00000007\n"),
    told!("edges 0:3" =>
        "0:3 pc 00000008 store 00000040 00000000 -> 00000007\n  \
        before 1:2 pc 00000014 load 00000040 00000007  (already)\n"),
    told!("edges 0:4" =>
        "0:4 pc 0000000c load 00000040 00000001\n  \
        after  1:3 pc 00000018 store 00000040 00000007 -> 00000001  (not yet)\n"),
    told!("edges 1:3" =>
        "1:3 pc 00000018 store 00000040 00000007 -> 00000001\n  \
        before 0:4 pc 0000000c load 00000040 00000001\n"),
    told!("conflicts 1:3" =>
        "1:3 pc 00000018 store 00000040 00000007 -> 00000001\n  \
        earlier 0:3 pc 00000008 store 00000040 00000000 -> 00000007\n  \
        later   0:4 pc 0000000c load 00000040 00000001\n"),
    told!("conflicts 1:1" => "no access\n"),
    told!("decisions" =>
        "1 this way, 0 the other: 0:3 pc 00000008 store 00000040 00000000 -> 00000007 \
        before 1:2 pc 00000014 load 00000040 00000007\n\
        1 this way, 0 the other: 1:3 pc 00000018 store 00000040 00000007 -> 00000001 \
        before 0:4 pc 0000000c load 00000040 00000001\n"),
    told!("cut" => "cut 3 2\n"),
    told!("why 0:5" =>
        "0:5 pc 00000010\n  \
        0:4 pc 0000000c load 00000040 00000001 after 1:3 pc 00000018 store 00000040 00000007 -> 00000001\n  \
        1:2 pc 00000014 load 00000040 00000007 after 0:3 pc 00000008 store 00000040 00000000 -> 00000007\n"),
    told!("why 0:3" => "0:3 pc 00000008 store 00000040 00000000 -> 00000007\n"),
    told!("slack 0" => "core 0: 3 to 3, at 3\ncore 1: 0 to 4, at 2\n"),
    told!("slack 1" => "core 0: 3 to 3, at 3\ncore 1: 2 to 2, at 2\n"),
    told!("goto 5 4" => "cut 5 4\n"),
    told!("last 0x40" => "cut 3 2\n"),
    told!("last 0x40" => "cut 2 1\n"),
    told!("last 0x40" => "no write: the opening value\n"),
    told!("slack 0" => "core 0: 2 to 2, at 2\ncore 1: 0 to 1, at 1\n"),
    told!("trace 0:3 1" =>
        "  0:2 pc 00000004\n\
        + 0:3 pc 00000008 store 00000040 00000000 -> 00000007\n\
        + 0:4 pc 0000000c load 00000040 00000001\n"),
    told!("trace 1:4 1" =>
        "+ 1:3 pc 00000018 store 00000040 00000007 -> 00000001\n\
        + 1:4 pc 0000001c\n"),
    told!("trace 1:1 0" => "  1:1 pc 00000000\n"),
    told!("calls 0x18" => "core 1: 1 in all, first 1:3, last 1:3\n"),
    told!("calls 0" => "core 0: 1 in all, first 0:1, last 0:1\ncore 1: 1 in all, first 1:1, last 1:1\n"),
    told!("calls 0x1a" => "no instruction has this pc\n"),
];
