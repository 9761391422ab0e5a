//! Marks.
ghost use Rattle.std.specs.Prelude.{◌≡◌, ◌++◌, [], IfOk, OnErr, OnOk, string_bytes};
ghost use Rattle.std.specs.List.{flat_map};
ghost use Rattle.std.specs.Option.{option_map};
ghost use Rattle.cut_marks.specs.Marks.{behind_name, counts_of, is_named, mark_of, mark_row, marks_text, with_mark};
ghost use Rattle.cut_marks.specs.Marks.{without_name};

use gdb_commands::{Put, Told, line, put_counts};
use rtr_types::{Cut, Items};
use std::alloc::{AllocError, Global};
use std::marker::Model;

/// A cut with a name.
#[derive(Drop)]
pub struct Mark {
    /// Its name.
    pub name: Items<u8>,
    /// How many instructions of each core it has.
    pub counts: Items<u32>,
}

/// Cuts with names, each name once.
#[derive(Drop)]
pub struct Marks {
    list: Items<Mark>,
}

impl Model for Marks {
    ghost use Rattle.std.specs.Prelude.{List};
    ghost use Rattle.cut_marks.specs.declared.marks.Mark.{Mark};

    ghost Value = { List Mark };

    ghost view = { λ a. a.list };
}

impl Marks {
    /// None.
    pub fn new(alloc: Global) -> Marks
        ensures { result ≡ [] }
    {
        Marks {
            list: Items::new(alloc),
        }
    }

    /// The cut has this name from here on. After want of memory all is as it was.
    pub fn put(&mut self, alloc: Global, name: &[u8], cut: &Cut) -> Result<(), AllocError>
        ensures ok { OnOk result (self.new ≡ with_mark (mark_of name.now cut.now) self.old) }
        ensures err { OnErr result (self.new ≡ self.old) }
    {
        let mark = mark_of(alloc, name, cut)?;
        let mut list = without_name(alloc, name, self.list.as_slice())?;
        list.push(mark)?;
        self.list = list;
        Ok(())
    }

    /// The counts of the cut with this name, if there is one.
    pub fn counts(&self, name: &[u8]) -> Option<&[u32]>
        ensures { option_map (λ counts. counts.now) result ≡ counts_of name.now self.now }
    {
        counts_of(name, self.list.as_slice())
    }

    /// Each mark in a line. It is refused for want of memory alone.
    pub fn told(&self, alloc: Global) -> Told
        ensures { IfOk result (λ told. told ≡ marks_text self.now) }
    {
        if self.list.len() == 0 {
            line(alloc, "no mark")
        } else {
            rows_told(alloc, self.list.as_slice())
        }
    }
}

/// The cut with this name.
fn mark_of(alloc: Global, name: &[u8], cut: &Cut) -> Result<Mark, AllocError>
    ensures { IfOk result (λ mark. mark ≡ mark_of name.now cut.now) }
{
    let cores = cut.counts.len().min(cut.cores.into());
    let name = Items::from_vec(Vec::from_slice(alloc, name)?);
    let counts = Items::from_vec(Vec::from_slice(alloc, &cut.counts[..cores])?);
    Ok(Mark { name, counts })
}

/// Whether a mark has this name.
fn is_named(name: &[u8], mark: &Mark) -> bool
    ensures { result ≡ is_named name.now mark.now }
{
    mark.name.as_slice() == name
}

/// A mark of its own that is like this one.
fn copied(alloc: Global, mark: &Mark) -> Result<Mark, AllocError>
    ensures { IfOk result (λ copy. copy ≡ mark.now) }
{
    let name = Items::from_vec(Vec::from_slice(alloc, mark.name.as_slice())?);
    let counts = Items::from_vec(Vec::from_slice(alloc, mark.counts.as_slice())?);
    Ok(Mark { name, counts })
}

/// The marks of other names.
fn without_name(alloc: Global, name: &[u8], marks: &[Mark]) -> Result<Items<Mark>, AllocError>
    ensures { IfOk result (λ kept. kept ≡ without_name name.now marks.now) }
{
    let mut kept = Items::new(alloc);
    for mark in marks {
        if !is_named(name, mark) {
            kept.push(copied(alloc, mark)?)?;
        }
    }
    Ok(kept)
}

/// The counts of the first mark with this name.
fn counts_of<'a>(name: &[u8], marks: &'a [Mark]) -> Option<&'a [u32]>
    ensures { option_map (λ counts. counts.now) result ≡ counts_of name.now marks.now }
{
    for mark in marks {
        if is_named(name, mark) {
            return Some(mark.counts.as_slice());
        }
    }
    None
}

/// Each mark in a line.
fn rows_told(alloc: Global, marks: &[Mark]) -> Told
    ensures { IfOk result (λ told. told ≡ flat_map mark_row marks.now) }
{
    let mut out = Vec::new(alloc);
    for mark in marks {
        put_row(alloc, &mut out, mark)?;
    }
    Ok(Items::from_vec(out))
}

/// Puts a mark in a line.
fn put_row(alloc: Global, out: &mut Vec<u8>, mark: &Mark) -> Put
    ensures { OnOk result (out.new.items ≡ out.old.items ++ mark_row mark.now) }
{
    let text = behind_name(alloc, mark.counts.as_slice())?;
    out.extend_from_slice(mark.name.as_slice())?;
    out.extend_from_slice(text.as_bytes())
}

/// What stands behind a mark's name in its line.
fn behind_name(alloc: Global, counts: &[u32]) -> Result<String, AllocError>
    ensures { IfOk result (λ text. string_bytes text ≡ behind_name counts.now) }
{
    let mut text = String::new(alloc);
    write!(text, ":")?;
    put_counts(&mut text, counts)?;
    writeln!(text)?;
    Ok(text)
}
