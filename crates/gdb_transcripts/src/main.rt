//! A program that plays stored sessions of gdb, packet by packet, and compares each answer to the byte.
//!
//! Tested, not proved of gdb: thirteen whole sessions of gdb 13.1, 1,768 packets, are answered to the byte. They are on
//! recordings of four programs with 2, 4 and 16 cores. The answers are those of a plain program, with which gdb printed
//! what `tests/sessions` has. `Player::plays`: where a line is passed, the session did as it says (`Does`). So an
//! answer that differs, is missing or is too many ends a session's play.
#![tactic(auto)]

mod lines;
mod player;
mod playing;
mod sessions;

use playing::{Played, audited, play};
use sessions::{SESSIONS, Stored};
use std::rt::Files;
use std::{fs, io};

fn main(rt: HostRuntime) -> io::Result<()> {
    for stored in &SESSIONS {
        show(&rt, stored)?;
    }
    Ok(())
}

/// Plays a session, and prints a line of it.
fn show<R: AllocGlobal + Files + Print>(rt: &R, stored: &Stored) -> io::Result<()> {
    let alloc = rt.alloc();
    let name = stored.name;
    let recording = fs::read(rt, format!(in alloc; "{}.recording", stored.recording)?)?;
    let packets = fs::read(rt, format!(in alloc; "{name}.packets")?)?;
    let audited = audited(alloc, recording.as_slice())?;
    let Played {
        packets,
        answers,
        other,
    } = play(alloc, &audited, packets.as_slice())?;
    match other {
        None => println!(rt; "{name}: {packets} packets, {answers} answers, all as stored"),
        Some(line) => println!(rt;
            "{name}: {packets} packets, {answers} answers, others from line {line} on"
        ),
    }
}
