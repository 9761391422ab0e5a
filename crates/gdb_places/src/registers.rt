//! What is told of a core's registers.
ghost use Rattle.std.specs.Prelude.{◌≡◌, ◌<◌, ◌++◌, IfOk, OnOk};
ghost use Rattle.std.specs.Int.{to_le_bytes, w32};
ghost use Rattle.replay_core.specs.Plans.{recorded_image};
ghost use Rattle.gdb_places.specs.Registers.{general_words, register_reply, register_words, registers_reply};
ghost use Rattle.gdb_places.specs.Registers.{spelled, told_pc, word_reply};

use debug_place::Place;
use gdb_packets::Reply;
use image_mem::Image;
use rtr_types::Items;
use rv_core::{Core, REGISTERS, Stop};
use std::alloc::{AllocError, Global};

/// The way back over an instruction, as what is added to its end.
const BACK: u32 = 4_294_967_292;

/// The pc that is told of a core: an EBREAK counts as retired, and a core whose program has ended there is shown at it,
/// as on hardware, and not behind it. Every other end leaves the core at the instruction that it can't retire.
fn told_pc(core: &Core, image: &Image) -> u32
    ensures { result ≡ told_pc image.now core.now }
{
    match core.stop(image) {
        Stop::Break => core.pc().wrapping_add(BACK),
        _ => core.pc(),
    }
}

/// The words of a core's registers: x0 to x31, pc as it is told, how many instructions it has retired, and how many it
/// retired in all.
fn register_words(
    alloc: Global,
    core: &Core,
    image: &Image,
    total: u32,
) -> Result<Items<u32>, AllocError>
    ensures { IfOk result (λ words. words ≡ register_words image.now core.now total) }
{
    let mut words = Vec::new(alloc);
    put_registers(&mut words, core)?;
    words.push(told_pc(core, image))?;
    words.push(core.count())?;
    words.push(total)?;
    Ok(Items::from_vec(words))
}

/// Puts the registers x0 to x31.
fn put_registers(words: &mut Vec<u32>, core: &Core) -> Result<(), AllocError>
    ensures { OnOk result (words.new.items ≡ words.old.items ++ general_words core.now) }
{
    for k in 0..REGISTERS as u8 {
        words.push(core.reg(k))?;
    }
    Ok(())
}

/// All registers of a core of the place, whose total this is. It is refused for want of memory alone.
pub fn registers_reply(
    alloc: Global,
    image: &Image,
    place: &Place,
    core: u8,
    total: u32,
) -> Result<Reply, AllocError>
    requires image { image.now ≡ recorded_image place.now.recording }
    requires core { core < place.now.recording.params.cores }
    ensures { IfOk result (λ reply. reply ≡ registers_reply place.now core total) }
{
    let words = register_words(alloc, &place.core(core), image, total)?;
    Ok(Reply::Bytes(spelled(alloc, words.as_slice())?))
}

/// One register of a core of the place, whose total this is. It is refused for want of memory alone.
pub fn register_reply(
    alloc: Global,
    image: &Image,
    place: &Place,
    core: u8,
    total: u32,
    number: u64,
) -> Result<Reply, AllocError>
    requires image { image.now ≡ recorded_image place.now.recording }
    requires core { core < place.now.recording.params.cores }
    ensures { IfOk result (λ reply. reply ≡ register_reply place.now core total number) }
{
    let words = register_words(alloc, &place.core(core), image, total)?;
    word_reply(alloc, words.as_slice(), number)
}

/// One of the words.
fn word_reply(alloc: Global, words: &[u32], number: u64) -> Result<Reply, AllocError>
    ensures { IfOk result (λ reply. reply ≡ word_reply words.now number) }
{
    match words.get(number as usize) {
        Some(word) => Ok(Reply::Bytes(word_bytes(alloc, *word)?)),
        None => Ok(Reply::Refused),
    }
}

/// The bytes of a word, the lowest first.
fn word_bytes(alloc: Global, word: u32) -> Result<Items<u8>, AllocError>
    ensures { IfOk result (λ bytes. bytes ≡ to_le_bytes w32 word) }
{
    Ok(Items::from_vec(Vec::from_slice(alloc, &word.to_le_bytes())?))
}

/// The bytes of words, of each the lowest first.
fn spelled(alloc: Global, words: &[u32]) -> Result<Items<u8>, AllocError>
    ensures { IfOk result (λ bytes. bytes ≡ spelled words.now) }
{
    let mut bytes = Vec::new(alloc);
    for word in words {
        bytes.extend_from_slice(&word.to_le_bytes())?;
    }
    Ok(Items::from_vec(bytes))
}
