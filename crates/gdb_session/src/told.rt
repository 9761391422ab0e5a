//! What is told of a place, without moving.
ghost use Rattle.std.specs.Prelude.{◌≡◌, ◌<◌, IfOk};
ghost use Rattle.replay_core.specs.Plans.{recorded_image};
ghost use Rattle.gdb_moves.specs.Sights.{Sees};
ghost use Rattle.gdb_session.specs.Told.{place_reply, still_reply, there_reply, thread_reply, told_stop, word_reply};
ghost use Rattle.gdb_session.specs.Wishes.{Fit};

use crate::wishes::{Wishes, core_of, is_there};
use debug_place::Place;
use gdb_packets::{Plain, Reply, Signal, Stop, Thread, Why};
use gdb_places::{
    TARGET, memory_reply, part_reply, register_reply, registers_reply, thread_text, threads_text,
};
use image_mem::Image;
use replay_audit::Audited;
use rtr_types::Items;
use std::alloc::{AllocError, Global};

/// The answer to a packet that moves nothing and sets no point.
pub(crate) fn still_reply(
    alloc: Global,
    audited: &Audited,
    image: &Image,
    place: &Place,
    wishes: Wishes,
    plain: Plain,
) -> Result<Reply, AllocError>
    requires sees { Sees audited.now image.now place.now }
    requires fit { Fit wishes place.now.recording.params.cores }
    ensures { IfOk result (λ reply. reply ≡ still_reply place.now wishes plain) }
{
    let cores = place.cores();
    match plain {
        Plain::LastStop => Ok(Reply::Stopped(told_stop(wishes.told))),
        Plain::ToldThread => Ok(Reply::ToldThread(wishes.told)),
        Plain::ThreadsFirst => Ok(Reply::ThreadsFirst(cores)),
        Plain::LookAt(thread) | Plain::MoveWith(thread) => Ok(there_reply(is_there(thread, cores))),
        Plain::IsThere(thread) => Ok(there_reply(core_of(thread, cores).is_some())),
        Plain::ThreadText(thread) => thread_reply(alloc, audited, image, place, thread),
        Plain::TargetPart(span) => part_reply(alloc, TARGET.as_bytes(), span),
        Plain::ThreadsPart(span) => {
            let text = threads_text(alloc, audited, image, place)?;
            part_reply(alloc, text.as_bytes(), span)
        }
        Plain::Registers | Plain::Register(_) | Plain::Memory(_) => place_reply(
            alloc,
            audited,
            image,
            place,
            wishes.looked,
            plain,
        ),
        _ => Ok(word_reply(plain)),
    }
}

/// The stop that is told where there was none: of the core that was told last.
pub(crate) fn told_stop(core: u8) -> Stop
    ensures { result ≡ told_stop core }
{
    Stop {
        signal: Signal::Trap,
        core,
        why: Why::Nothing,
    }
}

/// Whether there is such a thing, as an answer.
pub(crate) fn there_reply(there: bool) -> Reply
    ensures { result ≡ there_reply there }
{
    if there { Reply::Done } else { Reply::Refused }
}

/// What is said of a thread.
fn thread_reply(
    alloc: Global,
    audited: &Audited,
    image: &Image,
    place: &Place,
    thread: Thread,
) -> Result<Reply, AllocError>
    requires { Sees audited.now image.now place.now }
    ensures { IfOk result (λ reply. reply ≡ thread_reply place.now thread) }
{
    match core_of(thread, place.cores()) {
        Some(core) => {
            let text = thread_text(alloc, audited, image, place, core)?;
            Ok(Reply::Bytes(Items::from_vec(text.into_bytes())))
        }
        None => Ok(Reply::Refused),
    }
}

/// Registers of a core, or memory.
fn place_reply(
    alloc: Global,
    audited: &Audited,
    image: &Image,
    place: &Place,
    core: u8,
    plain: Plain,
) -> Result<Reply, AllocError>
    requires recording { audited.now.recording ≡ place.now.recording }
    requires image { image.now ≡ recorded_image place.now.recording }
    requires core { core < place.now.recording.params.cores }
    ensures { IfOk result (λ reply. reply ≡ place_reply place.now core plain) }
{
    let total = audited.recording().totals.as_slice()[core as usize];
    match plain {
        Plain::Registers => registers_reply(alloc, image, place, core, total),
        Plain::Register(number) => register_reply(alloc, image, place, core, total, number),
        Plain::Memory(span) => memory_reply(alloc, place, audited.recording().params.words, span),
        _ => Ok(Reply::Unknown),
    }
}

/// The answers that say nothing of the place.
fn word_reply(plain: Plain) -> Reply
    ensures { result ≡ word_reply plain }
{
    match plain {
        Plain::ThreadsRest => Reply::ThreadsRest,
        Plain::Features => Reply::Features,
        Plain::Attached => Reply::Attached,
        Plain::StopAcks | Plain::Detach | Plain::Kill => Reply::Done,
        Plain::OtherPart => Reply::Absent,
        Plain::Write | Plain::Malformed => Reply::Refused,
        _ => Reply::Unknown,
    }
}
