//! Answers, and how they are spelled.
ghost use Rattle.std.specs.Prelude.{◌≡◌, ◌+◌, ◌++◌, IfOk, OnOk, codes};
ghost use Rattle.hex.specs.Hex.{encode_lower};
ghost use Rattle.gdb_packets.specs.Numbers.{numeral};
ghost use Rattle.gdb_packets.specs.Replies.{features_text, signal_number, spelled, stop_text, thread_text};
ghost use Rattle.gdb_packets.specs.Replies.{threads_text};
ghost use Rattle.gdb_packets.specs.Replies.{why_text};

use crate::asks::Watch;
use crate::numbers::put_number;
use rtr_types::Items;
use std::alloc::{AllocError, Global};

/// Why a program has stopped, as a signal.
#[derive(Clone, Copy, PartialEq, Eq)]
pub enum Signal {
    /// The debugger's user asked for it (SIGINT).
    Interrupt,
    /// A word that is no instruction (SIGILL).
    Illegal,
    /// A point, a step or a break instruction (SIGTRAP).
    Trap,
    /// An address that isn't aligned (SIGBUS).
    Misaligned,
    /// An address outside the memory (SIGSEGV).
    Segment,
}

/// What a stop says beside the signal and the thread.
#[derive(Clone, Copy, PartialEq, Eq)]
pub enum Why {
    /// Nothing.
    Nothing,
    /// A breakpoint.
    Breakpoint,
    /// An access to what is watched so from this address on.
    Watched(Watch, u64),
    /// All that was recorded has been done.
    End,
    /// Nothing has been done.
    Begin,
}

/// A stop.
#[derive(Clone, Copy, PartialEq, Eq)]
pub struct Stop {
    /// Why, as a signal.
    pub signal: Signal,
    /// The core that is told, counted from 0; its thread's number is one more.
    pub core: u8,
    /// What is said beside it.
    pub why: Why,
}

/// An answer.
#[derive(Drop)]
pub enum Reply {
    /// The packet isn't known.
    Unknown,
    /// It's done.
    Done,
    /// It can't be done.
    Refused,
    /// There is no such document.
    Absent,
    /// What this server can do.
    Features,
    /// The actions that there are.
    ResumeKinds,
    /// The program was there before the debugger.
    Attached,
    /// The thread of this core.
    ToldThread(u8),
    /// The threads of so many cores.
    ThreadsFirst(u8),
    /// There are no more threads.
    ThreadsRest,
    /// The program has stopped.
    Stopped(Stop),
    /// Bytes, as digits.
    Bytes(Items<u8>),
    /// A text for the debugger's user, as digits; more follows.
    Output(Items<u8>),
    /// A part of a document, behind which there is more.
    Part(Items<u8>),
    /// The last part of a document.
    LastPart(Items<u8>),
}

/// The payload of an answer. It is refused for want of memory alone.
pub fn spell(alloc: Global, reply: &Reply) -> Result<Items<u8>, AllocError>
    ensures { IfOk result (λ bytes. bytes ≡ spelled reply.now) }
{
    let mut out = Vec::new(alloc);
    put_reply(alloc, &mut out, reply)?;
    Ok(Items::from_vec(out))
}

/// Writes an answer behind some bytes.
fn put_reply(alloc: Global, out: &mut Vec<u8>, reply: &Reply) -> Result<(), AllocError>
    ensures { OnOk result (out.new.items ≡ out.old.items ++ spelled reply.now) }
{
    match reply {
        Reply::Unknown => Ok(()),
        Reply::Done => put(out, "OK"),
        Reply::Refused => put(out, "E01"),
        Reply::Absent => put(out, "E00"),
        Reply::Features => put_features(out),
        Reply::ResumeKinds => put(out, "vCont;c;C;s;S"),
        Reply::Attached => put(out, "1"),
        Reply::ToldThread(core) => put_told(alloc, out, *core),
        Reply::ThreadsFirst(cores) => put_first(alloc, out, *cores),
        Reply::ThreadsRest => put(out, "l"),
        Reply::Stopped(stop) => put_stop(alloc, out, stop),
        Reply::Bytes(bytes) => put_digits(alloc, out, bytes.as_slice()),
        Reply::Output(text) => put_output(alloc, out, text.as_slice()),
        Reply::Part(text) => put_part(out, "m", text.as_slice()),
        Reply::LastPart(text) => put_part(out, "l", text.as_slice()),
    }
}

/// Writes the thread that was told last.
fn put_told(alloc: Global, out: &mut Vec<u8>, core: u8) -> Result<(), AllocError>
    ensures { OnOk result (out.new.items ≡ out.old.items ++ codes "QC" ++ numeral (core + 1)) }
{
    put(out, "QC")?;
    put_number(alloc, out, core as u64 + 1)
}

/// Writes the first part of the list of threads.
fn put_first(alloc: Global, out: &mut Vec<u8>, cores: u8) -> Result<(), AllocError>
    ensures { OnOk result (out.new.items ≡ out.old.items ++ codes "m" ++ threads_text cores) }
{
    put(out, "m")?;
    put_threads(alloc, out, cores)
}

/// Writes a text for the debugger's user.
fn put_output(alloc: Global, out: &mut Vec<u8>, text: &[u8]) -> Result<(), AllocError>
    ensures { OnOk result (out.new.items ≡ out.old.items ++ codes "O" ++ encode_lower text.now) }
{
    put(out, "O")?;
    put_digits(alloc, out, text)
}

/// Writes a part of a document behind the letter that says whether more follows.
fn put_part(out: &mut Vec<u8>, letter: &str, text: &[u8]) -> Result<(), AllocError>
    ensures { OnOk result (out.new.items ≡ out.old.items ++ letter.now ++ text.now) }
{
    put(out, letter)?;
    out.extend_from_slice(text)
}

/// Writes a text behind some bytes.
fn put(out: &mut Vec<u8>, text: &str) -> Result<(), AllocError>
    ensures { OnOk result (out.new.items ≡ out.old.items ++ text.now) }
{
    out.extend_from_slice(text.as_bytes())
}

/// Writes bytes as digits behind some bytes.
fn put_digits(alloc: Global, out: &mut Vec<u8>, bytes: &[u8]) -> Result<(), AllocError>
    ensures { OnOk result (out.new.items ≡ out.old.items ++ encode_lower bytes.now) }
{
    let text = hex::encode(alloc, bytes)?;
    out.extend_from_slice(text.as_bytes())
}

/// Writes what this server can do.
fn put_features(out: &mut Vec<u8>) -> Result<(), AllocError>
    ensures { OnOk result (out.new.items ≡ out.old.items ++ features_text) }
{
    put(
        out,
        "PacketSize=1000;QStartNoAckMode+;vContSupported+;swbreak+;hwbreak+;",
    )?;
    put(
        out,
        "ReverseStep+;ReverseContinue+;qXfer:features:read+;qXfer:threads:read+",
    )
}

/// Writes the threads of so many cores.
fn put_threads(alloc: Global, out: &mut Vec<u8>, cores: u8) -> Result<(), AllocError>
    ensures { OnOk result (out.new.items ≡ out.old.items ++ threads_text cores) }
{
    for core in 0..cores {
        put_thread(alloc, out, core)?;
    }
    Ok(())
}

/// Writes a core's thread in a list of them.
fn put_thread(alloc: Global, out: &mut Vec<u8>, core: u8) -> Result<(), AllocError>
    ensures { OnOk result (out.new.items ≡ out.old.items ++ thread_text core) }
{
    if core != 0 {
        put(out, ",")?;
    }
    put_number(alloc, out, core as u64 + 1)
}

/// Writes a stop.
fn put_stop(alloc: Global, out: &mut Vec<u8>, stop: &Stop) -> Result<(), AllocError>
    ensures { OnOk result (out.new.items ≡ out.old.items ++ stop_text stop.now) }
{
    put(out, "T")?;
    put_signal(out, stop.signal)?;
    put(out, "thread:")?;
    put_number(alloc, out, stop.core as u64 + 1)?;
    put(out, ";")?;
    put_why(alloc, out, stop.why)
}

/// Writes the number of a signal.
fn put_signal(out: &mut Vec<u8>, signal: Signal) -> Result<(), AllocError>
    ensures { OnOk result (out.new.items ≡ out.old.items ++ signal_number signal) }
{
    let number = match signal {
        Signal::Interrupt => "02",
        Signal::Illegal => "04",
        Signal::Trap => "05",
        Signal::Misaligned => "0a",
        Signal::Segment => "0b",
    };
    put(out, number)
}

/// Writes why a program has stopped.
fn put_why(alloc: Global, out: &mut Vec<u8>, why: Why) -> Result<(), AllocError>
    ensures { OnOk result (out.new.items ≡ out.old.items ++ why_text why) }
{
    match why {
        Why::Nothing => Ok(()),
        Why::Breakpoint => put(out, "swbreak:;"),
        Why::Watched(Watch::Write, address) => put_watched(alloc, out, "watch:", address),
        Why::Watched(Watch::Read, address) => put_watched(alloc, out, "rwatch:", address),
        Why::Watched(Watch::Access, address) => put_watched(alloc, out, "awatch:", address),
        Why::End => put(out, "replaylog:end;"),
        Why::Begin => put(out, "replaylog:begin;"),
    }
}

/// Writes a kind of watching by its word, and the address that was touched.
fn put_watched(alloc: Global, out: &mut Vec<u8>, word: &str, address: u64) -> Result<(), AllocError>
    ensures { OnOk result (out.new.items ≡ out.old.items ++ word.now ++ numeral address ++ codes ";") }
{
    put(out, word)?;
    put_number(alloc, out, address)?;
    put(out, ";")
}
