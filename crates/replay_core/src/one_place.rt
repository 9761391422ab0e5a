//! What one instruction reads, writes and leaves to be told, by what it uses.
ghost use Rattle.std.specs.Prelude.{◌≡◌, ◌<◌, length, IsTrue};
ghost use Rattle.load_lists.specs.Lists.{LoadRooms};
ghost use Rattle.replay_core.specs.Play.{old_for, words_after, loads_after, accesses_by, heeded, shared, found_for};
ghost use Rattle.replay_core.specs.Answers.{told, UsesWithin, AreNoted};

use image_mem::Memory;
use load_lists::LoadLists;
use rtr_types::{Access, Instr, Kind};
use rv_core::LoadNote;

/// The value that the instruction finds in its word, or 0 without one.
pub(crate) fn old_value(memory: &Memory, used: Option<(Kind, u32)>) -> u32
    requires { UsesWithin used (length memory.now) }
    ensures { result ≡ old_for used memory.now }
{
    match used {
        Some((_, word)) => memory.get(word),
        None => 0,
    }
}

/// The given value, where the instruction heeds it: a load does.
pub(crate) fn heeded(given: Option<u32>, used: Option<(Kind, u32)>) -> Option<u32>
    ensures { result ≡ heeded given used }
{
    let value = given?;
    if used?.0.is_write() {
        return None;
    }
    Some(value)
}

/// What the instruction uses of the memory: nothing, where its value is given.
pub(crate) fn shared(given: Option<u32>, used: Option<(Kind, u32)>) -> Option<(Kind, u32)>
    ensures { result ≡ shared given used }
{
    match given {
        Some(_) => None,
        None => used,
    }
}

/// The value that the instruction finds: the given one, or that of its word.
pub(crate) fn found(given: Option<u32>, memory: &Memory, used: Option<(Kind, u32)>) -> u32
    requires { UsesWithin used (length memory.now) }
    ensures { result ≡ found_for given used memory.now }
{
    match given {
        Some(value) => value,
        None => old_value(memory, used),
    }
}

/// Leaves a value in its word, where it writes.
pub(crate) fn leave(memory: &mut Memory, used: Option<(Kind, u32)>, value: u32)
    requires { UsesWithin used (length memory.old) }
    ensures { memory.new ≡ words_after used memory.old value }
{
    if let Some((kind, word)) = used {
        if kind.is_write() {
            memory.put(word, value);
        }
    }
}

/// Notes the value that the core's instruction found, where it reads.
pub(crate) fn note(
    loads: &mut LoadLists,
    core: u8,
    used: Option<(Kind, u32)>,
    count: u32,
    value: u32,
)
    requires core { core < length loads.old.lists }
    requires room { IsTrue loads.old.roomy }
    ensures { AreNoted loads.old.lists core used count value loads.new.lists }
{
    if let Some((kind, word)) = used {
        if kind.is_read() {
            loads.note(core, LoadNote { count, word, value });
        }
    }
}

/// The access, if the instruction makes one.
pub(crate) fn access(
    used: Option<(Kind, u32)>,
    at: Instr,
    before: u32,
    after: u32,
) -> Option<Access>
    ensures { told result ≡ accesses_by used at before after }
{
    match used {
        Some((kind, word)) => Some(Access {
            at,
            word,
            kind,
            before,
            after,
        }),
        None => None,
    }
}
