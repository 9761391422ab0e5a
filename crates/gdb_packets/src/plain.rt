//! What packets mean that have no list in them.
ghost use Rattle.std.specs.Prelude.{◌≡◌, None, Some, if◌then◌else◌, is_some};
ghost use Rattle.std.specs.Fn.{FnOnceReturnsAt};
ghost use Rattle.std.specs.Str.{bytes_eq};
ghost use Rattle.gdb_packets.specs.Asks.{Asks, data_asks, head_asks, other_span, part_ask, plain_of};
ghost use Rattle.gdb_packets.specs.Asks.{point, point_ask, point_asks, point_kind, point_span, span_of};
ghost use Rattle.gdb_packets.specs.Asks.{thread_asks, thread_of, word_asks, write_asks};
ghost use Rattle.gdb_packets.specs.Texts.{behind};

use crate::asks::{Plain, PointKind, Span, Thread, Watch};
use crate::numbers::number_of;
use crate::texts::{behind, cut_at, is};

/// What the payload asks.
pub(crate) fn plain_of(payload: &[u8]) -> Plain
    ensures { result ≡ plain_of payload.now }
{
    let words = word_asks(payload).or(head_asks(payload).or(write_asks(payload)));
    let others = thread_asks(payload).or(data_asks(payload).or(point_asks(payload)));
    words.or(others).unwrap_or(Plain::Unknown)
}

/// The packets of one word: what is there, a move or the end, threads, and how answers are sent.
fn word_asks(payload: &[u8]) -> Option<Plain>
    ensures { result ≡ word_asks payload.now }
{
    word(payload, "?", Plain::LastStop)
        .or(word(payload, "g", Plain::Registers))
        .or(word(payload, "vCont?", Plain::ResumeKinds))
        .or(word(payload, "qC", Plain::ToldThread))
        .or(word(payload, "bs", Plain::StepBack))
        .or(word(payload, "bc", Plain::GoBack))
        .or(word(payload, "D", Plain::Detach))
        .or(word(payload, "k", Plain::Quit))
        .or(word(payload, "qfThreadInfo", Plain::ThreadsFirst))
        .or(word(payload, "qsThreadInfo", Plain::ThreadsRest))
        .or(word(payload, "QStartNoAckMode", Plain::StopAcks))
}

/// What the payload asks, where it is this word.
fn word(payload: &[u8], word: &str, plain: Plain) -> Option<Plain>
    ensures { result ≡ if bytes_eq payload.now word.now then Some plain else None }
{
    if is(payload, word) { Some(plain) } else { None }
}

/// The packets that mean the same whatever follows their first bytes.
fn head_asks(payload: &[u8]) -> Option<Plain>
    ensures { result ≡ head_asks payload.now }
{
    if behind(payload, "qSupported").is_some() {
        Some(Plain::Features)
    } else if behind(payload, "qAttached").is_some() {
        Some(Plain::Attached)
    } else if behind(payload, "D;").is_some() {
        Some(Plain::Detach)
    } else if behind(payload, "vKill;").is_some() {
        Some(Plain::Kill)
    } else {
        None
    }
}

/// The packets that write.
fn write_asks(payload: &[u8]) -> Option<Plain>
    ensures { result ≡ write_asks payload.now }
{
    match payload {
        [b'G' | b'M' | b'P' | b'X', ..] => Some(Plain::Write),
        _ => None,
    }
}

/// What the payload asks, where it begins with these bytes and an argument stands behind them.
fn ask<A, R: FnOnce(&[u8]) -> Option<A>, M: FnOnce(A) -> Plain>(
    payload: &[u8],
    head: &str,
    read: R,
    make: M,
) -> Option<Plain>
    requires read { R.IsAlwaysCallable read }
    requires make { M.IsAlwaysCallable make }
    ensures { Asks (FnOnceReturnsAt R.FnOnce read) (M.post make) (behind payload.now head.now) result }
{
    let text = behind(payload, head)?;
    Some(read(text).map_or(Plain::Malformed, make))
}

/// The packets that name a thread.
fn thread_asks(payload: &[u8]) -> Option<Plain>
    ensures { result ≡ thread_asks payload.now }
{
    ask(payload, "Hg", thread_of, Plain::LookAt)
        .or(ask(payload, "Hc", thread_of, Plain::MoveWith))
        .or(ask(payload, "T", thread_of, Plain::IsThere))
        .or(ask(payload, "qThreadExtraInfo,", thread_of, Plain::ThreadText))
}

/// The packets that want a register, memory or a part of a document.
fn data_asks(payload: &[u8]) -> Option<Plain>
    ensures { result ≡ data_asks payload.now }
{
    ask(payload, "p", number_of, Plain::Register)
        .or(ask(payload, "m", span_of, Plain::Memory))
        .or(behind(payload, "qXfer:").map(part_ask))
}

/// The document, and which part of it.
fn part_ask(text: &[u8]) -> Plain
    ensures { result ≡ part_ask text.now }
{
    let known = ask(
        text,
        "features:read:target.xml:",
        span_of,
        Plain::TargetPart,
    )
    .or(ask(text, "threads:read::", span_of, Plain::ThreadsPart));
    match known {
        Some(part) => part,
        None if is_part(text) => Plain::OtherPart,
        None => Plain::Malformed,
    }
}

/// Whether the text is `OBJECT:OPERATION:ANNEX:AT,LEN`.
fn is_part(text: &[u8]) -> bool
    ensures { result ≡ is_some (other_span text.now) }
{
    other_span(text).is_some()
}

/// The span behind `OBJECT:OPERATION:ANNEX:`.
fn other_span(text: &[u8]) -> Option<Span>
    ensures { result ≡ other_span text.now }
{
    let (_, operation) = cut_at(b':', text)?;
    let (_, annex) = cut_at(b':', operation)?;
    let (_, span) = cut_at(b':', annex)?;
    span_of(span)
}

/// The packets that set a point or take one away.
fn point_asks(payload: &[u8]) -> Option<Plain>
    ensures { result ≡ point_asks payload.now }
{
    if let Some(text) = behind(payload, "Z") {
        Some(point_ask(text, true))
    } else if let Some(text) = behind(payload, "z") {
        Some(point_ask(text, false))
    } else {
        None
    }
}

/// The point that is set or taken away; one of another kind is unknown.
fn point_ask(text: &[u8], set: bool) -> Plain
    ensures { result ≡ point_ask set text.now }
{
    let (first, rest) = match text.split_first() {
        Some((first, rest)) => (*first, rest),
        None => return Plain::Unknown,
    };
    match (point_kind(first), point_span(rest)) {
        (Some(kind), Some(span)) => point(set, kind, span),
        (Some(_), None) => Plain::Malformed,
        (None, _) => Plain::Unknown,
    }
}

/// The point, set or taken away.
fn point(set: bool, kind: PointKind, span: Span) -> Plain
    ensures { result ≡ point set kind span }
{
    if set {
        Plain::SetPoint(kind, span)
    } else {
        Plain::ClearPoint(kind, span)
    }
}

/// `,ADDR,KIND`.
fn point_span(text: &[u8]) -> Option<Span>
    ensures { result ≡ point_span text.now }
{
    span_of(behind(text, ",")?)
}

/// The kind of a point, by its digit.
fn point_kind(digit: u8) -> Option<PointKind>
    ensures { result ≡ point_kind digit }
{
    match digit {
        b'0' => Some(PointKind::Software),
        b'1' => Some(PointKind::Hardware),
        b'2' => Some(PointKind::Watch(Watch::Write)),
        b'3' => Some(PointKind::Watch(Watch::Read)),
        b'4' => Some(PointKind::Watch(Watch::Access)),
        _ => None,
    }
}

/// The thread that a text names: -1 for all, 0 for any, else the core behind which the number is by one.
pub(crate) fn thread_of(text: &[u8]) -> Option<Thread>
    ensures { result ≡ thread_of text.now }
{
    if is(text, "-1") {
        return Some(Thread::All);
    }
    match number_of(text)? {
        0 => Some(Thread::Any),
        number => Some(Thread::Core(number - 1)),
    }
}

/// `AT,LEN`.
fn span_of(text: &[u8]) -> Option<Span>
    ensures { result ≡ span_of text.now }
{
    let (at, len) = cut_at(b',', text)?;
    let at = number_of(at)?;
    let len = number_of(len)?;
    Some(Span { at, len })
}
