//! Sessions over two streams in memory, with a partner that sends each packet back.
use gdb_packets::Line;
use gdb_server::{Answer, Next, Partner, Streams, TalkFault, greet, talk};
use rtr_io::{MemSink, MemSource};
use rtr_types::Items;
use std::alloc::{AllocError, Global};
use std::test::Fail;

/// Sends each packet back until one is `k`, and counts interrupts.
#[derive(Drop)]
struct Echo {
    interrupts: u32,
}

impl Partner for Echo {
    ghost answers = { λ old packet new answer. Unit {0} };

    ghost interrupts = { λ old new. Unit {0} };

    fn answer(&mut self, alloc: Global, packet: &[u8]) -> Result<Answer, AllocError> {
        let mut payloads = Items::new(alloc);
        if packet.len() == 1 && packet[0] == b'k' {
            return Ok(Answer {
                payloads,
                next: Next::End,
            });
        }
        payloads.push(Items::from_vec(packet.to_vec(alloc)?))?;
        Ok(Answer {
            payloads,
            next: Next::Listen,
        })
    }

    fn interrupt(&mut self) {
        self.interrupts = self.interrupts.wrapping_add(1);
    }
}

/// What came of a session: whether it had a packet at all, how many interrupts the partner took, and what was written.
#[derive(Drop)]
struct Said {
    ended: Result<bool, TalkFault>,
    interrupts: u32,
    written: Vec<u8>,
}

/// A session from its first byte to its last: whether it had a packet.
fn play(
    alloc: Global,
    echo: &mut Echo,
    streams: &mut Streams<MemSource, MemSink>,
) -> Result<bool, TalkFault> {
    let mut line = Line::new(alloc)?;
    if !greet(alloc, &mut line, streams)? {
        return Ok(false);
    }
    talk(alloc, echo, &mut line, streams)?;
    Ok(true)
}

/// What comes of these bytes. The writes of these numbers, from 1, fail.
fn session(alloc: Global, sent: &[u8], failing: &[u64]) -> Result<Said, Fail> {
    let mut streams = Streams {
        input: MemSource::new(sent.to_vec(alloc)?, Vec::new(alloc), 64),
        output: MemSink::new(alloc, 256, failing.to_vec(alloc)?, 64)?,
    };
    let mut echo = Echo { interrupts: 0 };
    let ended = play(alloc, &mut echo, &mut streams);
    Ok(Said {
        ended,
        interrupts: echo.interrupts,
        written: streams.output.bytes().to_vec(alloc)?,
    })
}

// The first interrupt comes before any packet and is passed over. What stands behind the last packet isn't heard.
#[test]
fn each_packet_is_acknowledged_and_answered(rt: HostRuntime) -> Result<(), Fail> {
    let said = session(rt.alloc(), b"+\x03$ab#c3+\x03$k#6b$ab#c3", &[])?;
    assert!(rt; matches!(said.ended, Ok(true)));
    assert_eq!(rt; said.interrupts, 1);
    assert_eq!(rt; said.written.as_slice(), b"+$ab#c3+".as_slice());
    Ok(())
}

#[test]
fn without_a_packet_nothing_is_said(rt: HostRuntime) -> Result<(), Fail> {
    let said = session(rt.alloc(), b"+\x03", &[])?;
    assert!(rt; matches!(said.ended, Ok(false)));
    assert_eq!(rt; said.written.len(), 0);
    Ok(())
}

#[test]
fn a_write_that_fails_ends_the_session(rt: HostRuntime) -> Result<(), Fail> {
    let said = session(rt.alloc(), b"$ab#c3", &[2])?;
    assert!(rt; matches!(said.ended, Err(TalkFault::WriteFault)));
    assert_eq!(rt; said.written.as_slice(), b"+".as_slice());
    Ok(())
}
