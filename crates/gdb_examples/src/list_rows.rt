//! Packets whose meaning has a list: threads that go on, and commands.
use crate::rows::{Asked, Row};
use gdb_packets::{Action, Thread};

/// A packet with the actions that it asks for: each whether it is one step, and who takes it.
macro_rules! resumes {
    ($payload:literal => $(($step:literal, $who:expr)),*) => {
        Row { payload: $payload, asks: Asked::Resume(&[$(Action { step: $step, who: $who }),*]) }
    };
}

/// A packet with its command.
macro_rules! commands {
    ($payload:literal => $text:literal) => {
        Row { payload: $payload, asks: Asked::Command($text) }
    };
}

/// What the sessions have, each once, and one more.
pub static RESUMES: [Row; 10] = [
    resumes!("vCont;C0b:2;c" => (false, Thread::Core(1)), (false, Thread::All)),
    resumes!("vCont;c" => (false, Thread::All)),
    resumes!("vCont;c:2" => (false, Thread::Core(1))),
    resumes!("vCont;s:1" => (true, Thread::Core(0))),
    resumes!("vCont;s:1;c" => (true, Thread::Core(0)), (false, Thread::All)),
    resumes!("vCont;s:2" => (true, Thread::Core(1))),
    resumes!("vCont;s:2;c" => (true, Thread::Core(1)), (false, Thread::All)),
    resumes!("vCont;s:3" => (true, Thread::Core(2))),
    resumes!("vCont;s:4" => (true, Thread::Core(3))),
    resumes!("vCont;S05:-1;c:2" => (true, Thread::All), (false, Thread::Core(1))),
];

/// The commands that the sessions have, each once.
pub static COMMANDS: [Row; 19] = [
    commands!("qRcmd,636f6e666c6963747320323a3333" => "conflicts 2:33"),
    commands!("qRcmd,637574" => "cut"),
    commands!("qRcmd,6561726c696573742032" => "earliest 2"),
    commands!("qRcmd,656467657320323a3333" => "edges 2:33"),
    commands!("qRcmd,656467657320333a313031" => "edges 3:101"),
    commands!("qRcmd,676f746f20312031203230302031" => "goto 1 1 200 1"),
    commands!("qRcmd,676f746f203120322033" => "goto 1 2 3"),
    commands!("qRcmd,676f746f20333a313030" => "goto 3:100"),
    commands!("qRcmd,686973746f727920307831303938" => "history 0x1098"),
    commands!("qRcmd,6c61746573742032" => "latest 2"),
    commands!("qRcmd,6c6561642031" => "lead 1"),
    commands!("qRcmd,6c65616420616c6c" => "lead all"),
    commands!("qRcmd,6e6f6e73656e7365" => "nonsense"),
    commands!("qRcmd,6f7264657220303a333020313a3630" => "order 0:30 1:60"),
    commands!("qRcmd,6f7264657220313a3820303a3535" => "order 1:8 0:55"),
    commands!("qRcmd,6f7468657220303a393920313a3639" => "other 0:99 1:69"),
    commands!("qRcmd,726561646572732034333434" => "readers 4344"),
    commands!("qRcmd,77726974657220307831306630" => "writer 0x10f0"),
    commands!("qRcmd,7772697465722034333434" => "writer 4344"),
];
