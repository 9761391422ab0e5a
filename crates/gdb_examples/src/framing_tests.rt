//! The bytes that go over a line, chunk by chunk, with a small server behind it.
use gdb_packets::{Ask, Line, Plain, Reply, Span, Told, ask_of, frame, spell};
use rtr_types::Items;
use std::alloc::{AllocError, Global};
use std::test::Fail;

/// What the debugger sends, and what is written before it sends more.
struct Chunk {
    sent: &'static [u8],
    written: &'static [u8],
}

// In turn: an ack before anything, then a packet; an unknown one; a wrong sum, and the right one; a refused answer,
// which is sent again; a packet in three pieces; a sum in capitals; bytes between packets, an interrupt among them; two
// packets in one piece; an escaped byte; a sum that is no number; a frame that begins anew, in its body and in its
// sum; no acks from here on, where a wrong sum has no answer; the end.
static CHUNKS: [Chunk; 21] = [
    Chunk {
        sent: b"+",
        written: b"",
    },
    Chunk {
        sent: b"$qSupported:swbreak+#8b",
        written: b"+$PacketSize=1000;QStartNoAckMode+;vContSupported+;swbreak+;hwbreak+;ReverseStep+;ReverseContinue+;\
            qXfer:features:read+;qXfer:threads:read+#83",
    },
    Chunk {
        sent: b"$vMustReplyEmpty#3a",
        written: b"+$#00",
    },
    Chunk {
        sent: b"$Hg0#00",
        written: b"-",
    },
    Chunk {
        sent: b"$Hg0#df",
        written: b"+$OK#9a",
    },
    Chunk {
        sent: b"-",
        written: b"$OK#9a",
    },
    Chunk {
        sent: b"$m",
        written: b"",
    },
    Chunk {
        sent: b"0,4#",
        written: b"",
    },
    Chunk {
        sent: b"fd",
        written: b"+$1311a500#bc",
    },
    Chunk {
        sent: b"$m0,4#FD",
        written: b"+$1311a500#bc",
    },
    Chunk {
        sent: b"xyz\x03+$qC#b4",
        written: b"+$QC1#c5",
    },
    Chunk {
        sent: b"$m0,4#fd$m4,4#01",
        written: b"+$1311a500#bc+$b7820000#c3",
    },
    Chunk {
        sent: b"$qRcmd,637574}\x03#e3",
        written: b"+$E01#a6",
    },
    Chunk {
        sent: b"$m0,4#zz",
        written: b"-",
    },
    Chunk {
        sent: b"$m0,$qC#b4",
        written: b"+$QC1#c5",
    },
    Chunk {
        sent: b"$m0,4#f$qC#b4",
        written: b"+$QC1#c5",
    },
    Chunk {
        sent: b"$QStartNoAckMode#b0",
        written: b"+$OK#9a",
    },
    Chunk {
        sent: b"+",
        written: b"",
    },
    Chunk {
        sent: b"$Hg0#00",
        written: b"",
    },
    Chunk {
        sent: b"$Hg0#df",
        written: b"$OK#9a",
    },
    Chunk {
        sent: b"$D#44$m0,4#fd",
        written: b"$OK#9a",
    },
];

/// The bytes at 0 and at 4.
static MEMORY: [u8; 8] = [0x13, 0x11, 0xa5, 0x00, 0xb7, 0x82, 0x00, 0x00];

/// What the small server answers.
fn answer_to(alloc: Global, ask: &Ask) -> Result<Reply, AllocError> {
    Ok(match ask {
        Ask::Plain(Plain::Features) => Reply::Features,
        Ask::Plain(Plain::LookAt(_)) => Reply::Done,
        Ask::Plain(Plain::StopAcks) => Reply::Done,
        Ask::Plain(Plain::Detach) => Reply::Done,
        Ask::Plain(Plain::ToldThread) => Reply::ToldThread(0),
        Ask::Plain(Plain::Memory(span)) => Reply::Bytes(bytes_at(alloc, *span)?),
        Ask::Plain(Plain::Malformed) => Reply::Refused,
        _ => Reply::Unknown,
    })
}

/// Four bytes of the memory.
fn bytes_at(alloc: Global, span: Span) -> Result<Items<u8>, AllocError> {
    let mut found = Items::new(alloc);
    for (i, b) in MEMORY.iter().enumerate() {
        if span.at <= i as u64 && i as u64 - span.at < span.len {
            found.push(*b)?;
        }
    }
    Ok(found)
}

/// Answers the packet that was heard, and tells whether it ends the session.
fn respond(alloc: Global, line: &mut Line, out: &mut Vec<u8>) -> Result<bool, AllocError> {
    let ask = ask_of(alloc, line.payload())?;
    let reply = answer_to(alloc, &ask)?;
    let payload = spell(alloc, &reply)?;
    line.answer(alloc, payload.as_slice(), out)?;
    if matches!(ask, Ask::Plain(Plain::StopAcks)) {
        line.stop_acks();
    }
    Ok(matches!(ask, Ask::Plain(Plain::Detach)))
}

/// What is written for a chunk.
fn written(alloc: Global, line: &mut Line, sent: &[u8]) -> Result<Vec<u8>, AllocError> {
    let mut out = Vec::new(alloc);
    for b in sent {
        let told = line.hear(*b, &mut out)?;
        if told == Told::Packet && respond(alloc, line, &mut out)? {
            break;
        }
    }
    Ok(out)
}

#[test]
fn the_bytes_are_those_of_the_description(rt: HostRuntime) -> Result<(), Fail> {
    let mut line = Line::new(rt.alloc())?;
    for chunk in &CHUNKS {
        let out = written(rt.alloc(), &mut line, chunk.sent)?;
        assert_eq!(rt; out.as_slice(), chunk.written);
    }
    Ok(())
}

/// What the last byte of these tells, read from the beginning.
fn last_told(alloc: Global, bytes: &[u8]) -> Result<Told, AllocError> {
    let mut line = Line::new(alloc)?;
    let mut out = Vec::new(alloc);
    let mut told = Told::Nothing;
    for b in bytes {
        told = line.hear(*b, &mut out)?;
    }
    Ok(told)
}

/// So many bytes that have to be escaped.
fn stars(alloc: Global, count: usize) -> Result<Vec<u8>, AllocError> {
    vec![in alloc; b'*'; count]
}

#[test]
fn a_payload_of_4096_bytes_is_taken(rt: HostRuntime) -> Result<(), Fail> {
    let payload = stars(rt.alloc(), 4096)?;
    let bytes = frame(rt.alloc(), payload.as_slice())?;
    assert_eq!(rt; bytes.len(), 8196);
    let told = last_told(rt.alloc(), bytes.as_slice())?;
    assert_eq!(rt; told, Told::Packet);
    Ok(())
}

#[test]
fn a_longer_one_is_broken(rt: HostRuntime) -> Result<(), Fail> {
    let payload = stars(rt.alloc(), 4097)?;
    let bytes = frame(rt.alloc(), payload.as_slice())?;
    let told = last_told(rt.alloc(), bytes.as_slice())?;
    assert_eq!(rt; told, Told::Broken);
    Ok(())
}

#[test]
fn an_escape_at_the_end_is_broken(rt: HostRuntime) -> Result<(), Fail> {
    let told = last_told(rt.alloc(), b"$g}#e4")?;
    assert_eq!(rt; told, Told::Broken);
    let interrupt = last_told(rt.alloc(), b"$g#67\x03")?;
    assert_eq!(rt; interrupt, Told::Interrupt);
    Ok(())
}
