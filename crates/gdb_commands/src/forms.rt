//! What is told of a text that is no command.
ghost use Rattle.std.specs.Prelude.{◌≡◌, ◌++◌, IfOk, OnOk};
ghost use Rattle.std.specs.Option.{option_map, option_or};
ghost use Rattle.gdb_commands.specs.Forms.{asking_form, cause_form, form_of, form_text, moving_form, unmeant_text};
ghost use Rattle.gdb_commands.specs.Forms.{mark_form, names_text, unknown_text};

use crate::lines::{Put, Told};
use gdb_packets::is;
use rtr_types::Items;
use std::alloc::Global;

/// What is told of a text with this first word that is no command: how that command goes, if there is such a command,
/// or else the commands that there are. It is refused for want of memory alone.
pub fn unmeant_told(alloc: Global, word: &[u8]) -> Told
    ensures { IfOk result (λ text. text ≡ unmeant_text word.now) }
{
    match form_of(word) {
        Some(form) => form_told(alloc, form),
        None => unknown_told(alloc, word),
    }
}

/// How a command goes.
fn form_told(alloc: Global, form: &str) -> Told
    ensures { IfOk result (λ text. text ≡ form_text form.now) }
{
    let mut text = Vec::new(alloc);
    put(&mut text, "rtr_gdb: the command is monitor ")?;
    put(&mut text, form)?;
    text.push(b'\n')?;
    Ok(Items::from_vec(text))
}

/// That there is no command with this name, and which there are.
fn unknown_told(alloc: Global, word: &[u8]) -> Told
    ensures { IfOk result (λ text. text ≡ unknown_text word.now) }
{
    let mut text = Vec::new(alloc);
    put(&mut text, "rtr_gdb: no command '")?;
    text.extend_from_slice(word)?;
    put(&mut text, "'; monitor takes ")?;
    put_names(&mut text)?;
    text.push(b'\n')?;
    Ok(Items::from_vec(text))
}

/// Puts the names of the commands.
fn put_names(text: &mut Vec<u8>) -> Put
    ensures { OnOk result (text.new.items ≡ text.old.items ++ names_text) }
{
    put(
        text,
        "cut, when, goto, mark, marks, earliest, latest, last, decision, other, lead, slack, why, ",
    )?;
    put(
        text,
        "edges, order, conflicts, writer, readers, history, decisions, trace, calls and info",
    )
}

/// Puts words behind others.
fn put(text: &mut Vec<u8>, words: &str) -> Put
    ensures { OnOk result (text.new.items ≡ text.old.items ++ words.now) }
{
    text.extend_from_slice(words.as_bytes())
}

/// How the command with this name goes, if there is one.
fn form_of(name: &[u8]) -> Option<&'static str>
    ensures { option_map (λ form. form.now) result ≡ form_of name.now }
{
    match moving_form(name) {
        Some(form) => Some(form),
        None => told_form(name),
    }
}

/// The commands that move nothing, but those that say where the place is.
fn told_form(name: &[u8]) -> Option<&'static str>
    ensures { option_map (λ form. form.now) result
        ≡ option_or (cause_form name.now) (option_or (asking_form name.now) (mark_form name.now)) }
{
    match cause_form(name) {
        Some(form) => Some(form),
        None => match asking_form(name) {
            Some(form) => Some(form),
            None => mark_form(name),
        },
    }
}

/// The commands that say where the place is, or move it.
fn moving_form(name: &[u8]) -> Option<&'static str>
    ensures { option_map (λ form. form.now) result ≡ moving_form name.now }
{
    if is(name, "cut") {
        Some("cut")
    } else if is(name, "goto") {
        Some("goto C:N, goto N N .. or goto NAME")
    } else if is(name, "earliest") {
        Some("earliest C")
    } else if is(name, "latest") {
        Some("latest C")
    } else if is(name, "last") {
        Some("last ADDR")
    } else if is(name, "decision") {
        Some("decision C:N C:N")
    } else if is(name, "when") {
        Some("when")
    } else {
        None
    }
}

/// The commands by which cores lead, or that ask for causes.
fn cause_form(name: &[u8]) -> Option<&'static str>
    ensures { option_map (λ form. form.now) result ≡ cause_form name.now }
{
    if is(name, "lead") {
        Some("lead C or lead all")
    } else if is(name, "slack") {
        Some("slack C")
    } else if is(name, "why") {
        Some("why C:N")
    } else if is(name, "order") {
        Some("order C:N C:N")
    } else if is(name, "other") {
        Some("other C:N C:N")
    } else if is(name, "decisions") {
        Some("decisions")
    } else {
        None
    }
}

/// The commands that ask for a word, an instruction or the whole of the run.
fn asking_form(name: &[u8]) -> Option<&'static str>
    ensures { option_map (λ form. form.now) result ≡ asking_form name.now }
{
    if is(name, "edges") {
        Some("edges C:N")
    } else if is(name, "conflicts") {
        Some("conflicts C:N")
    } else if is(name, "writer") {
        Some("writer ADDR")
    } else if is(name, "readers") {
        Some("readers ADDR")
    } else if is(name, "info") {
        Some("info")
    } else if is(name, "history") {
        Some("history ADDR, history ADDR writes or history ADDR core C")
    } else {
        None
    }
}

/// The commands that mark cuts, or ask which instructions cores took.
fn mark_form(name: &[u8]) -> Option<&'static str>
    ensures { option_map (λ form. form.now) result ≡ mark_form name.now }
{
    if is(name, "mark") {
        Some("mark NAME, a name that is no C:N and no count")
    } else if is(name, "marks") {
        Some("marks")
    } else if is(name, "trace") {
        Some("trace C:N or trace C:N K")
    } else if is(name, "calls") {
        Some("calls ADDR")
    } else {
        None
    }
}
