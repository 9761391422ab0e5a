//! What the debugger has asked for that lasts.
ghost use Rattle.std.specs.Prelude.{◌≡◌, ◌<◌, true, IfSome};
ghost use Rattle.gdb_monitor.specs.Leading.{can_lead};
ghost use Rattle.gdb_session.specs.Wishes.{Fit, commanded_wishes, core_of, is_there, led_by, looks_at, moves_with};
ghost use Rattle.gdb_session.specs.Wishes.{outliving, told_wishes, wishes_after};

use gdb_commands::Command;
use gdb_monitor::can_lead;
use gdb_packets::{Plain, Thread};

/// What the debugger has asked for that lasts, and what it was told last. Cores are counted from 0.
#[derive(Clone, Copy, Debug, PartialEq, Eq)]
pub struct Wishes {
    /// The core whose registers are asked for.
    pub looked: u8,
    /// The core that was told last.
    pub told: u8,
    /// The core that goes back; none where all do.
    pub moving: Option<u8>,
    /// The core by which alone all go on and back; none where each does.
    pub lead: Option<u8>,
    /// Whether the next move is to be left out, since it was interrupted.
    pub interrupted: bool,
    /// Whether the session outlives the program.
    pub extended: bool,
}

/// The core that a thread's name means, if it is one of so many.
pub(crate) fn core_of(thread: Thread, cores: u8) -> Option<u8>
    ensures core { result ≡ core_of thread cores }
    ensures within { IfSome result (λ core. core < cores) }
{
    match thread {
        Thread::Core(core) if core < cores as u64 => Some(core as u8),
        _ => None,
    }
}

/// Whether the name is of a thread that is there, or of all threads, or of any.
pub(crate) fn is_there(thread: Thread, cores: u8) -> bool
    ensures { result ≡ is_there thread cores }
{
    match thread {
        Thread::All | Thread::Any => true,
        Thread::Core(core) => core < cores as u64,
    }
}

/// The core that is looked at from here on.
fn looks_at(wishes: Wishes, thread: Thread, cores: u8) -> Wishes
    requires { Fit wishes cores }
    ensures wishes { result ≡ looks_at wishes thread cores }
    ensures fit { Fit result cores }
{
    let looked = match thread {
        Thread::All | Thread::Any => wishes.told,
        Thread::Core(_) => core_of(thread, cores).unwrap_or(wishes.looked),
    };
    Wishes { looked, ..wishes }
}

/// The cores that go back from here on.
fn moves_with(wishes: Wishes, thread: Thread, cores: u8) -> Wishes
    requires { Fit wishes cores }
    ensures wishes { result ≡ moves_with wishes thread cores }
    ensures fit { Fit result cores }
{
    let moving = match thread {
        Thread::All | Thread::Any => None,
        Thread::Core(_) => core_of(thread, cores).or(wishes.moving),
    };
    Wishes { moving, ..wishes }
}

/// The wishes behind a packet that moves nothing.
pub(crate) fn wishes_after(wishes: Wishes, plain: Plain, cores: u8) -> Wishes
    requires { Fit wishes cores }
    ensures wishes { result ≡ wishes_after wishes plain cores }
    ensures fit { Fit result cores }
{
    let mut wishes = wishes;
    match plain {
        Plain::LookAt(thread) => looks_at(wishes, thread, cores),
        Plain::MoveWith(thread) => moves_with(wishes, thread, cores),
        Plain::ThreadsPart(_) | Plain::ThreadsFirst => {
            wishes.interrupted = false;
            wishes
        }
        _ => wishes,
    }
}

/// The wishes behind a move, at whose end a core was told.
pub(crate) fn told_wishes(wishes: Wishes, core: u8, cores: u8) -> Wishes
    requires fit { Fit wishes cores }
    requires core { core < cores }
    ensures wishes { result ≡ told_wishes wishes core }
    ensures fit { Fit result cores }
{
    Wishes {
        looked: core,
        told: core,
        moving: wishes.moving,
        lead: wishes.lead,
        interrupted: false,
        extended: wishes.extended,
    }
}

/// The wishes from which on this core leads; without one none does.
pub(crate) fn led_by(wishes: Wishes, core: Option<u8>, cores: u8) -> Wishes
    requires fit { Fit wishes cores }
    requires there { can_lead core cores ≡ true }
    ensures wishes { result ≡ led_by wishes core }
    ensures fit { Fit result cores }
{
    let mut wishes = wishes;
    wishes.lead = core;
    wishes
}

/// The wishes behind a command of the debugger's user.
pub(crate) fn commanded_wishes(wishes: Wishes, command: &Command, cores: u8) -> Wishes
    requires { Fit wishes cores }
    ensures wishes { result ≡ commanded_wishes wishes command.now cores }
    ensures fit { Fit result cores }
{
    match command {
        Command::Lead(core) if can_lead(*core, cores) => led_by(wishes, *core, cores),
        _ => wishes,
    }
}

/// The wishes from which on the session outlives the program.
pub(crate) fn outliving(wishes: Wishes, cores: u8) -> Wishes
    requires { Fit wishes cores }
    ensures wishes { result ≡ outliving wishes }
    ensures fit { Fit result cores }
{
    let mut wishes = wishes;
    wishes.extended = true;
    wishes
}
