//! Spellings of numbers at the ends of each length, and bytes that begin with none.
use std::process::Abort;
use std::test::Fail;
use varint_core::{Varint, put_u32, take_u32};

// The numbers at the ends of each length, with their spellings.
#[test]
fn lengths(rt: HostRuntime) -> Result<(), Fail> {
    let rows: [(u32, &[u8]); 10] = [
        (0, &[0]),
        (127, &[0x7f]),
        (128, &[0x80, 1]),
        (16_383, &[0xff, 0x7f]),
        (16_384, &[0x80, 0x80, 1]),
        ((1 << 28) - 1, &[0xff, 0xff, 0xff, 0x7f]),
        (1 << 28, &[0x80, 0x80, 0x80, 0x80, 1]),
        (10_000, &[0x90, 0x4e]),
        (624_485, &[0xe5, 0x8e, 0x26]),
        (u32::MAX, &[0xff, 0xff, 0xff, 0xff, 0x0f]),
    ];
    for (value, bytes) in rows {
        let mut out = Vec::new(rt.alloc());
        put_u32(&mut out, value)?;
        put_u32(&mut out, value)?;
        is_spelled(&rt, value, bytes, out.as_slice());
    }
    Ok(())
}

// The number has this spelling, which was written twice.
fn is_spelled(rt: &impl Abort, value: u32, bytes: &[u8], twice: &[u8]) {
    assert!(rt; twice.len() == 2 * bytes.len(), "at {value}");
    assert!(rt; &twice[..bytes.len()] == bytes, "at {value}");
    assert!(rt; take_u32(bytes) == Ok((value, bytes.len())), "at {value}");
}

// Bytes that begin with no number, and the first reason why.
#[test]
fn refusals(rt: HostRuntime) {
    let rows: [(&[u8], Varint); 10] = [
        (&[], Varint::Short),
        (&[0x80], Varint::Short),
        (&[0xff, 0xff, 0xff, 0xff], Varint::Short),
        (&[0x80, 0x80, 0x80, 0x80, 0x80], Varint::Over),
        (&[0xff, 0xff, 0xff, 0xff, 0xff, 0], Varint::Over),
        (&[0x80, 0x80, 0x80, 0x80, 0x10], Varint::Over),
        (&[0xff, 0xff, 0xff, 0xff, 0x7f], Varint::Over),
        (&[0x81, 0], Varint::NotShortest),
        (&[0x80, 0, 1], Varint::NotShortest),
        (&[0xff, 0xff, 0xff, 0xff, 0], Varint::NotShortest),
    ];
    for (bytes, why) in rows {
        assert!(rt; take_u32(bytes) == Err(why), "in {bytes:?}");
    }
}

// Bytes after the spelling are left alone.
#[test]
fn followed(rt: HostRuntime) {
    assert!(rt; take_u32(&[0x80, 1, 0, 0xff]) == Ok((128, 2)));
}
