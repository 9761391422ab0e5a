//! The core file of three cores at the end of their run, and that of the largest memory.
use crate::recordings::three;
use core_file::core_file;
use rtr_types::{CORES_MAX, Items, WORDS_MAX, Which};
use rv_core::{Core, Outcome};
use std::alloc::{AllocError, Global};
use std::test::Fail;

/// The sum of the file's bytes, by FNV-1a. `tests/core_in_gdb` makes the same file by itself and opens it in gdb.
const SUM: u32 = 0x021e_fddf;

/// The core file of the outcome, if it has the core and isn't too large.
fn made(alloc: Global, outcome: &Outcome, first: u8) -> Result<Option<Items<u8>>, AllocError> {
    let cores = outcome.cores.as_slice().len();
    let words = outcome.words.as_slice().len();
    if first as usize >= cores || cores > CORES_MAX as usize || words > WORDS_MAX as usize {
        return Ok(None);
    }
    Ok(Some(core_file(alloc, outcome, first)?))
}

/// The sum of the bytes.
fn sum_of(bytes: &[u8]) -> u32 {
    let mut sum = 0x811c_9dc5;
    for byte in bytes {
        sum = (sum ^ *byte as u32).wrapping_mul(0x0100_0193);
    }
    sum
}

/// The word at a place of the file.
fn word_at(bytes: &[u8], at: usize) -> Option<u32> {
    let word = bytes.get(at..)?.first_chunk::<4>()?;
    Some(u32::from_le_bytes(*word))
}

// The sizes, the threads, core 1 first, its pc and its x7, the word that was handed on, and the sum of all.
#[test]
fn core_of_three(rt: HostRuntime) -> Result<(), Fail> {
    let audited = three(rt.alloc(), Which::Reduced)?;
    let Some(file) = made(rt.alloc(), audited.outcome(), 1)? else {
        return Ok(assert!(rt; false));
    };
    let bytes = file.as_slice();
    assert!(rt; bytes.len() == 116 + 3 * 224 + 32 * 4);
    assert!(rt; (word_at(bytes, 160), word_at(bytes, 384)) == (Some(2), Some(1)));
    assert!(rt; (word_at(bytes, 208), word_at(bytes, 236)) == (Some(0x20), Some(7)));
    assert!(rt; word_at(bytes, 116 + 3 * 224 + 64) == Some(2));
    assert!(rt; sum_of(bytes) == SUM);
    Ok(())
}

/// One core before its first instruction, over a memory of so many words, each of which has its index.
fn opened(alloc: Global, words: u32) -> Result<Outcome, AllocError> {
    let mut memory = Items::new(alloc);
    for word in 0..words {
        memory.push(word)?;
    }
    let mut cores = Items::new(alloc);
    cores.push(Core::new(0, 1))?;
    Ok(Outcome {
        cores,
        words: memory,
        loads: Items::new(alloc),
    })
}

// A memory of 1 MiB: its words stand behind the core's note, the last of them at the file's end.
#[test]
fn core_of_the_largest_memory(rt: HostRuntime) -> Result<(), Fail> {
    let outcome = opened(rt.alloc(), WORDS_MAX)?;
    let Some(file) = made(rt.alloc(), &outcome, 0)? else {
        return Ok(assert!(rt; false));
    };
    let bytes = file.as_slice();
    assert!(rt; bytes.len() == 1_048_916);
    assert!(rt; word_at(bytes, 340 + 4 * 100_000) == Some(100_000));
    assert!(rt; word_at(bytes, 1_048_912) == Some(262_143));
    Ok(())
}
