//! A run of as many cores as there can be, with an edge from each core to every other.

use crate::calls::ask;
use row_texts::bytes;
use std::alloc::{AllocError, Global};
use std::sync::Wait;
use std::test::Fail;
use std::thread::Threads;

/// How many cores the run has.
const CORES: u8 = 16;

/// The count of each core's store.
const STORE: u8 = 3;

/// The count at which each core loads the word of core 0. It loads that of each next core one later.
const FIRST_LOAD: u8 = 105;

/// The count of each core's last instruction.
const LAST: u8 = 121;

/// slli x5,x10,4; addi x6,x10,1; sw x6,256(x5); addi x7,x0,50; addi x7,x7,-1; bne x7,x0,-4; then sixteen loads,
/// lw x8,256(x0) to lw x8,496(x0); ecall: each core writes a word of its own, goes round a loop for a hundred
/// instructions while the others write theirs, and reads the words of all.
const EACH_READS_ALL: &str = "93124500 13031500 23a06210 93032003 9383f3ff e39e03fe \
    03240010 03240011 03240012 03240013 03240014 03240015 03240016 03240017 \
    03240018 03240019 0324001a 0324001b 0324001c 0324001d 0324001e 0324001f \
    73000000";

/// The recording that is made of it.
pub fn recorded(rt: &(impl Threads + Wait + Sync), alloc: Global) -> Result<Vec<u8>, AllocError> {
    let words = "record --cores 16 --words 128 --seed 1";
    Ok(ask(rt, alloc, words, bytes(alloc, EACH_READS_ALL)?)?.output)
}

/// The recording up to its reduced log. No store comes before another, so that none of the edges from a store
/// to a load is implied by others.
fn front(alloc: Global) -> Result<Vec<u8>, AllocError> {
    let mut front = bytes(alloc, "52545202 10 904e 8001 5c")?;
    let image = bytes(alloc, EACH_READS_ALL)?;
    front.extend_from_slice(image.as_slice())?;
    for _ in 0..CORES {
        front.push(LAST)?;
    }
    for target in 0..CORES {
        front.push(CORES - 1)?;
        let mut last = 0;
        for source in 0..CORES {
            if source != target {
                let count = FIRST_LOAD + source;
                front.extend_from_slice(&[count.saturating_sub(last), source, STORE])?;
                last = count;
            }
        }
    }
    Ok(front)
}

/// What is said of the recording up to its reduced log.
fn text(alloc: Global) -> Result<String, AllocError> {
    let mut text = String::from_str(alloc, "cores 16 limit 10000 words 128 image 92\n")?;
    for core in 0..CORES {
        let total = format!(in alloc; "total {core} {LAST}\n")?;
        text.push_str(&total)?;
    }
    text.push_str("reduced 240\n")?;
    for source in 0..CORES {
        let count = FIRST_LOAD + source;
        for target in 0..CORES {
            if source != target {
                let edge = format!(in alloc; "edge {source}:{STORE} {target}:{count}\n")?;
                text.push_str(&edge)?;
            }
        }
    }
    Ok(text)
}

/// Whether `print` says that of the recording.
fn is_printed(
    rt: &(impl Threads + Wait + Sync),
    alloc: Global,
    recording: Vec<u8>,
) -> Result<bool, AllocError> {
    let text = text(alloc)?;
    let said = ask(rt, alloc, "print", recording)?;
    Ok(said.output.starts_with(text.as_bytes()))
}

/// Whether the recording has a certificate that shows all its edges.
fn is_certified(
    rt: &(impl Threads + Wait + Sync),
    alloc: Global,
    recording: Vec<u8>,
) -> Result<bool, AllocError> {
    let certificate = ask(rt, alloc, "certify", recording)?.output;
    let check = ask(rt, alloc, "check", certificate)?;
    Ok(check.output.as_slice() == b"least 240 edges\n".as_slice())
}

#[test]
fn each_core_comes_before_every_other(rt: HostRuntime) -> Result<(), Fail> {
    let alloc = rt.alloc();
    let made = recorded(&rt, alloc)?;
    assert!(rt; made.starts_with(front(alloc)?.as_slice()));
    assert!(rt; is_printed(&rt, alloc, made.clone()?)?);
    assert!(rt; is_certified(&rt, alloc, made)?);
    Ok(())
}
