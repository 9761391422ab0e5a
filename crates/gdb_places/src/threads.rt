//! What is said of threads.
ghost use Rattle.std.specs.Prelude.{◌≡◌, ◌<◌, ◌++◌, IfOk, OnOk, codes, string_bytes};
ghost use Rattle.std.specs.List.{flat_map};
ghost use Rattle.replay_core.specs.Orders.{counts_in};
ghost use Rattle.gdb_moves.specs.Sights.{IsOf, Sees};
ghost use Rattle.gdb_places.specs.Threads.{end_text, head_text, id_text, names_text, row_text, rows_text};
ghost use Rattle.gdb_places.specs.Threads.{thread_text, threads_text, wait_text, waits_of, waits_text};

use crate::waits::waits_of;
use debug_place::Place;
use gdb_moves::end_of;
use image_mem::Image;
use replay_audit::Audited;
use rtr_types::Instr;
use rv_core::Stop;
use state_text::stop_name;
use std::alloc::{AllocError, Global};

/// That a part of a text was put.
type Put = Result<(), AllocError>;

/// What is said of a thread: how far its core has come and, where it has come to its end, how its program ends, or
/// else what it waits for. It is refused for want of memory alone.
pub fn thread_text(
    alloc: Global,
    audited: &Audited,
    image: &Image,
    place: &Place,
    core: u8,
) -> Result<String, AllocError>
    requires sees { Sees audited.now image.now place.now }
    requires core { core < place.now.recording.params.cores }
    ensures { IfOk result (λ text. string_bytes text ≡ thread_text place.now core) }
{
    let count = count_of(place, core);
    let total = audited.recording().totals.as_slice()[core as usize];
    let mut text = String::new(alloc);
    write!(text, "retired {count} of {total}")?;
    if count < total {
        let next = Instr {
            core,
            count: count + 1,
        };
        put_waiting(alloc, &mut text, audited, place, next)?;
    } else {
        put_end(&mut text, end_of(audited.outcome(), image, core))?;
    }
    Ok(text)
}

/// How many instructions a core has retired at the place.
fn count_of(place: &Place, core: u8) -> u32
    requires { core < place.now.recording.params.cores }
    ensures { result ≡ counts_in place.now.state core }
{
    place.core(core).count()
}

/// Puts what an instruction waits for at the place, if it does.
fn put_waiting(alloc: Global, text: &mut String, audited: &Audited, place: &Place, at: Instr) -> Put
    requires { IsOf audited.now place.now }
    ensures { OnOk result (string_bytes text.new ≡ string_bytes text.old ++ waits_text (waits_of place.now at)) }
{
    let cut = place.cut();
    let waits = waits_of(alloc, audited.recording(), audited.which(), &cut, at)?;
    put_waits(text, waits.as_slice())
}

/// Puts how a program ends.
fn put_end(text: &mut String, end: Stop) -> Put
    ensures { OnOk result (string_bytes text.new ≡ string_bytes text.old ++ end_text end) }
{
    let name = stop_name(end);
    write!(text, ", {name}")
}

/// Puts what a core waits for, if it does.
fn put_waits(text: &mut String, waits: &[Instr]) -> Put
    ensures { OnOk result (string_bytes text.new ≡ string_bytes text.old ++ waits_text waits.now) }
{
    if waits.is_empty() {
        return Ok(());
    }
    put_some(text, waits)
}

/// Puts what a core waits for.
fn put_some(text: &mut String, waits: &[Instr]) -> Put
    ensures { OnOk result (string_bytes text.new
        ≡ string_bytes text.old ++ (codes ", waits for" ++ flat_map wait_text waits.now)) }
{
    put_words(text)?;
    put_list(text, waits)
}

/// Puts that a core waits.
fn put_words(text: &mut String) -> Put
    ensures { OnOk result (string_bytes text.new ≡ string_bytes text.old ++ codes ", waits for") }
{
    write!(text, ", waits for")
}

/// Puts instructions that are waited for.
fn put_list(text: &mut String, waits: &[Instr]) -> Put
    ensures { OnOk result (string_bytes text.new ≡ string_bytes text.old ++ flat_map wait_text waits.now) }
{
    for at in waits {
        let core = at.core;
        let count = at.count;
        write!(text, " {core}:{count}")?;
    }
    Ok(())
}

/// The document of all threads. It is refused for want of memory alone.
pub fn threads_text(
    alloc: Global,
    audited: &Audited,
    image: &Image,
    place: &Place,
) -> Result<String, AllocError>
    requires { Sees audited.now image.now place.now }
    ensures { IfOk result (λ text. string_bytes text ≡ threads_text place.now) }
{
    let mut text = String::new(alloc);
    write!(text, "<?xml version=\"1.0\"?><threads>")?;
    put_rows(alloc, &mut text, audited, image, place)?;
    write!(text, "</threads>")?;
    Ok(text)
}

/// Puts the threads.
fn put_rows(
    alloc: Global,
    text: &mut String,
    audited: &Audited,
    image: &Image,
    place: &Place,
) -> Put
    requires { Sees audited.now image.now place.now }
    ensures { OnOk result (string_bytes text.new
        ≡ string_bytes text.old ++ rows_text place.now place.now.recording.params.cores) }
{
    for core in 0..place.cores() {
        put_row(alloc, text, audited, image, place, core)?;
    }
    Ok(())
}

/// Puts a thread.
fn put_row(
    alloc: Global,
    text: &mut String,
    audited: &Audited,
    image: &Image,
    place: &Place,
    core: u8,
) -> Put
    requires sees { Sees audited.now image.now place.now }
    requires core { core < place.now.recording.params.cores }
    ensures { OnOk result (string_bytes text.new ≡ string_bytes text.old ++ row_text place.now core) }
{
    let inside = thread_text(alloc, audited, image, place, core)?;
    put_head(text, core)?;
    text.push_str(&inside)?;
    write!(text, "</thread>")
}

/// Puts what stands before a thread's text.
fn put_head(text: &mut String, core: u8) -> Put
    ensures { OnOk result (string_bytes text.new ≡ string_bytes text.old ++ head_text core) }
{
    put_id(text, core as u32 + 1)?;
    put_names(text, core)
}

/// Puts the beginning of a thread with this number.
fn put_id(text: &mut String, thread: u32) -> Put
    ensures { OnOk result (string_bytes text.new ≡ string_bytes text.old ++ id_text thread) }
{
    write!(text, "<thread id=\"{thread:x}")
}

/// Puts the names of a thread, by its core.
fn put_names(text: &mut String, core: u8) -> Put
    ensures { OnOk result (string_bytes text.new ≡ string_bytes text.old ++ names_text core) }
{
    write!(text, "\" core=\"{core}\" name=\"core {core}\">")
}
