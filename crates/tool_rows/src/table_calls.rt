//! The calls of a table. A table is a text, since a `static` of many rows is dear to prove: its blocks are parted by
//! empty lines. A block that begins with `@ NAME` is a piece, which other blocks name. Any other block is a call:
//!
//! - `$ WORDS` has its words;
//! - `< DIGITS` has bytes of its input;
//! - `= DIGITS` has bytes of its output, and `=<` has the whole input again;
//! - `> LINE | LINE` has lines of the text behind these bytes;
//! - `! STATUS REPORT` has the status of a call that is refused, and its report;
//! - `# REMARK` says how the rest was worked out.
//!
//! Behind digits there may stand how often they come, as in `00 * 64`. In place of digits or of a line there may be the
//! name of a piece, as in `@SUM`, which stands in the same table or in `SHARED`.

use self::Form::{Digits, Lines};
use crate::shared_pieces::SHARED;
use row_texts::{bytes, is_piece, piece};
use std::alloc::{AllocError, Global};
use std::test::Fail;

/// What bytes are written as: digits, or lines of a text.
#[derive(Clone, Copy)]
pub enum Form {
    Digits,
    Lines,
}

/// A call of the tool, and what is wanted of it.
pub struct Call<'a> {
    pub words: &'a str,
    pub input: Vec<u8>,
    pub output: Vec<u8>,
    pub text: Vec<u8>,
    pub status: u8,
    pub report: Vec<u8>,
    pub is_plain: bool,
}

impl Drop for Call<'_> {
    fn drop(self) {
        let Call {
            words: _words,
            input: _input,
            output: _output,
            text: _text,
            status: _status,
            report: _report,
            is_plain: _is_plain,
        } = self;
    }
}

impl<'a> Call<'a> {
    /// Takes a line over. A call with a line that says nothing, or with a name that no piece has, isn't plain.
    fn take(&mut self, alloc: Global, table: &str, line: &'a str) -> Result<(), AllocError> {
        let (mark, said) = line.split_once(' ').unwrap_or((line, ""));
        let is_plain = match mark {
            "#" => true,
            "$" => {
                self.words = said;
                true
            }
            "!" => {
                let (status, report) = said.split_once(' ').unwrap_or(("", said));
                self.status = status.parse().unwrap_or(0);
                put_line(alloc, &mut self.report, report, Lines)?;
                self.status > 0
            }
            _ => self.take_bytes(alloc, table, mark, said)?,
        };
        self.is_plain = self.is_plain && is_plain;
        Ok(())
    }

    /// Takes over bytes of the input or of what is wanted.
    fn take_bytes(
        &mut self,
        alloc: Global,
        table: &str,
        mark: &str,
        said: &str,
    ) -> Result<bool, AllocError> {
        match mark {
            "<" => put(alloc, table, &mut self.input, said, Digits),
            "=" => put(alloc, table, &mut self.output, said, Digits),
            ">" => put(alloc, table, &mut self.text, said, Lines),
            "=<" => {
                self.output.extend_from_slice(self.input.as_slice())?;
                Ok(true)
            }
            _ => Ok(false),
        }
    }
}

/// The call that a block of the table says.
pub fn call_of<'a>(alloc: Global, table: &'a str, block: &'a str) -> Result<Call<'a>, AllocError> {
    let mut call = Call {
        words: "",
        input: Vec::new(alloc),
        output: Vec::new(alloc),
        text: Vec::new(alloc),
        status: 0,
        report: Vec::new(alloc),
        is_plain: true,
    };
    for line in block.split('\n') {
        call.take(alloc, table, line)?;
    }
    Ok(call)
}

/// How many calls the table has.
pub fn calls(table: &str) -> usize {
    table.split("\n\n").filter(|block| !is_piece(block)).count()
}

/// The bytes of the table's piece with this name.
pub fn named(alloc: Global, table: &str, name: &str, form: Form) -> Result<Vec<u8>, Fail> {
    let lines = lines_of(table, name).ok_or("no such piece")?;
    let mut bytes = Vec::new(alloc);
    put_lines(alloc, &mut bytes, lines, form)?;
    Ok(bytes)
}

/// The lines of the piece with this name, of the table or of `SHARED`.
fn lines_of<'a>(table: &'a str, name: &str) -> Option<&'a str> {
    piece(table, name).or(piece(SHARED, name))
}

/// Puts the bytes of a line or of a piece behind the others. Answers whether there are such.
fn put(
    alloc: Global,
    table: &str,
    out: &mut Vec<u8>,
    said: &str,
    form: Form,
) -> Result<bool, AllocError> {
    match said.strip_prefix("@") {
        Some(name) => match lines_of(table, name) {
            Some(lines) => put_lines(alloc, out, lines, form)?,
            None => return Ok(false),
        },
        None => put_line(alloc, out, said, form)?,
    }
    Ok(true)
}

/// Puts the bytes of each line behind the others, but for remarks.
fn put_lines(alloc: Global, out: &mut Vec<u8>, lines: &str, form: Form) -> Result<(), AllocError> {
    for line in lines.split('\n') {
        if !line.starts_with("#") {
            put_line(alloc, out, line, form)?;
        }
    }
    Ok(())
}

/// Puts the bytes of a line behind the others.
fn put_line(alloc: Global, out: &mut Vec<u8>, line: &str, form: Form) -> Result<(), AllocError> {
    match form {
        Lines => {
            for part in line.split(" | ") {
                out.extend_from_slice(part.as_bytes())?;
                out.push(b'\n')?;
            }
        }
        Digits => {
            let (digits, copies) = line.split_once(" * ").unwrap_or((line, "1"));
            let piece = bytes(alloc, digits)?;
            for _ in 0..copies.parse::<u32>().unwrap_or(0) {
                out.extend_from_slice(piece.as_slice())?;
            }
        }
    }
    Ok(())
}
