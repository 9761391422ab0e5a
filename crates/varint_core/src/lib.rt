//! Numbers below 2^32 as bytes, by unsigned LEB128 in its shortest form. Each byte has seven bits, the low ones first,
//! and the top bit is set in each byte but the last.
//!
//! Proved: `put_u32` appends a number's spelling, and `take_u32` is the reading. The laws `round_trip`, `one_spelling`
//! and `prefix_free` say that each number has one spelling, which is read back, and that none begins another.
#![tactic(auto)]

ghost use Rattle.std.specs.Prelude.{◌≡◌, ◌+◌, ◌++◌, ◌<◌, ◌≤◌, OnOk, OnErr, IfOk, length};
ghost use Rattle.varint_core.specs.Leb128.{reading, spelling, end, RoundTrip, OneSpelling, PrefixFree};

use std::alloc::AllocError;

/// The most bytes that the spelling of a number below 2^32 has.
pub const BYTES_MAX: usize = 5;

/// Why bytes begin with no spelling of a number. The first that fits is answered.
#[derive(Clone, Copy, Debug, PartialEq, Eq)]
pub enum Varint {
    /// The bytes end before a byte without top bit, and there are at most four of them.
    Short,
    /// The number is 2^32 or more, or the first five bytes all have the top bit.
    Over,
    /// The last of at least two bytes is 0, so that a shorter spelling says the same.
    NotShortest,
}

/// Appends the shortest spelling of the number. Where there is no memory for it, nothing is
/// appended.
pub fn put_u32(out: &mut Vec<u8>, value: u32) -> Result<(), AllocError>
    ensures ok { OnOk result (out.new.items ≡ out.old.items ++ spelling value) }
    ensures err { OnErr result (out.new.items ≡ out.old.items) }
{
    // most numbers of a log have one byte
    if value < 128 {
        out.push(value as u8)?;
        return Ok(());
    }
    put_groups(out, value)
}

/// Appends the spelling, group by group. It stands in line: a call of its own costs more than the few groups.
#[inline(always)]
fn put_groups(out: &mut Vec<u8>, value: u32) -> Result<(), AllocError>
    ensures ok { OnOk result (out.new.items ≡ out.old.items ++ spelling value) }
    ensures err { OnErr result (out.new.items ≡ out.old.items) }
{
    out.reserve(BYTES_MAX)?;
    let mut rest = value;
    while rest >= 128 {
        out.push_reserved((rest % 128) as u8 + 128);
        rest /= 128;
    }
    out.push_reserved(rest as u8);
    Ok(())
}

/// The number that the bytes begin with, and the length of its spelling. Other bytes may follow.
pub fn take_u32(bytes: &[u8]) -> Result<(u32, usize), Varint>
    ensures value { result ≡ reading bytes.now }
    ensures within { IfOk result (λ r. r.1 ≤ length bytes.now) }
{
    let mut value: u64 = 0;
    let mut scale: u64 = 1;
    for (i, b) in bytes.iter().enumerate() {
        if i == BYTES_MAX {
            return Err(Varint::Over);
        }
        value += (*b % 128) as u64 * scale;
        if *b < 128 {
            return ended(value, i, *b);
        }
        scale *= 128;
    }
    if bytes.len() < BYTES_MAX {
        Err(Varint::Short)
    } else {
        Err(Varint::Over)
    }
}

/// The answer at a byte `b` without top bit, with the value so far and `i` bytes before it.
fn ended(value: u64, i: usize, b: u8) -> Result<(u32, usize), Varint>
    requires { i < 5 }
    ensures value { result ≡ end value i b }
    ensures len { IfOk result (λ r. r.1 ≡ i + 1) }
{
    if value >= 1 << 32 {
        Err(Varint::Over)
    } else if i > 0 && b == 0 {
        Err(Varint::NotShortest)
    } else {
        Ok((value as u32, i + 1))
    }
}

/// What is written is read again, whatever follows.
pub fn round_trip()
    ensures { RoundTrip }
{}

/// A number has one spelling: the bytes that are read as it are the ones that are written.
pub fn one_spelling()
    ensures { OneSpelling }
{}

/// No spelling begins another.
pub fn prefix_free()
    ensures { PrefixFree }
{}
