//! What packets ask.
use rtr_types::Items;

/// Whom a packet means.
#[derive(Clone, Copy, PartialEq, Eq)]
pub enum Thread {
    /// All threads (-1).
    All,
    /// Any thread (0).
    Any,
    /// The thread of this core, counted from 0; there may be no such core.
    Core(u64),
}

/// An address and a length in bytes, or a place in a document and how much of it is wanted. Of a breakpoint the
/// length means nothing.
#[derive(Clone, Copy, PartialEq, Eq)]
pub struct Span {
    /// Where it begins.
    pub at: u64,
    /// How long it is.
    pub len: u64,
}

/// What a point stops at.
#[derive(Clone, Copy, Debug, PartialEq, Eq)]
pub enum PointKind {
    /// An instruction, by a breakpoint in memory.
    Software,
    /// An instruction, by one of the machine's own.
    Hardware,
    /// Accesses to what is watched.
    Watch(Watch),
}

/// Which accesses are watched.
#[derive(Clone, Copy, Debug, PartialEq, Eq)]
pub enum Watch {
    /// Those that write.
    Write,
    /// Those that read.
    Read,
    /// All.
    Access,
}

/// What threads are to do.
#[derive(Clone, Copy, PartialEq, Eq)]
pub struct Action {
    /// Whether one instruction is to be taken, and not all that follow.
    pub step: bool,
    /// Which threads.
    pub who: Thread,
}

/// What a packet asks that has no list in it.
#[derive(Clone, Copy, PartialEq, Eq)]
pub enum Plain {
    /// Why the program has stopped.
    LastStop,
    /// All registers of the thread that is looked at.
    Registers,
    /// Which actions there are.
    ResumeKinds,
    /// Which thread was told last.
    ToldThread,
    /// One instruction back.
    StepBack,
    /// Back until something stops it.
    GoBack,
    /// The debugger leaves, and wants an answer.
    Detach,
    /// The debugger leaves, and wants none.
    Quit,
    /// The first part of the list of threads.
    ThreadsFirst,
    /// The next part of it.
    ThreadsRest,
    /// No frame is to be acknowledged behind this packet's answer.
    StopAcks,
    /// What this server can do.
    Features,
    /// Whether the program was there before the debugger.
    Attached,
    /// The program is to end, and the debugger wants an answer.
    Kill,
    /// Something is to be written.
    Write,
    /// The thread whose registers and memory are asked for from here on.
    LookAt(Thread),
    /// The threads that go back from here on.
    MoveWith(Thread),
    /// Whether there is such a thread.
    IsThere(Thread),
    /// What is said of a thread in a list.
    ThreadText(Thread),
    /// A part of the target's description.
    TargetPart(Span),
    /// A part of the document of threads.
    ThreadsPart(Span),
    /// A part of another document.
    OtherPart,
    /// A register, by its number, of the thread that is looked at; there may be no such register.
    Register(u64),
    /// Bytes of memory.
    Memory(Span),
    /// A point that is set.
    SetPoint(PointKind, Span),
    /// A point that is taken away.
    ClearPoint(PointKind, Span),
    /// A packet that begins as one that is known and goes on otherwise.
    Malformed,
    /// Any other packet.
    Unknown,
}

/// What a packet asks.
#[derive(Drop)]
pub enum Ask {
    /// Threads are to go on: of a thread the first action counts that names it.
    Resume(Items<Action>),
    /// A command of the debugger's user, as text.
    Command(Items<u8>),
    /// What has no list in it.
    Plain(Plain),
}
