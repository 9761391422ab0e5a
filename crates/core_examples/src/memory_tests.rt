//! Values from outside: words and lanes as the standard's little-endian memory has them.
use image_mem::{Image, Memory, TooLarge, merge_lanes};
use std::alloc::Global;
use std::test::Fail;

/// ADDI x1, x0, 5 as bytes, and half a word more, over four words.
fn image(alloc: Global) -> Result<Image, Fail> {
    let bytes = [0x93, 0x00, 0x50, 0x00, 0x34, 0x12].to_vec(alloc)?;
    Ok(Image::flat(bytes, 4)?)
}

#[test]
fn an_image_fetches_at_whole_words_alone(rt: HostRuntime) -> Result<(), Fail> {
    let image = image(rt.alloc())?;
    for (pc, want) in [
        (0, Some(0x0050_0093)),
        (1, None),
        (2, None),
        (4, None),
        (u32::MAX - 3, None),
    ] {
        assert!(rt; image.fetch(pc) == want, "at {pc}");
    }
    Ok(())
}

#[test]
fn an_image_gives_its_words(rt: HostRuntime) -> Result<(), Fail> {
    let image = image(rt.alloc())?;
    assert!(rt; (image.words(), image.bytes().len()) == (4, 6));
    for (word, want) in [(0, 0x0050_0093), (1, 0x1234), (2, 0), (u32::MAX, 0)] {
        assert!(rt; image.word(word) == want, "word {word}");
    }
    Ok(())
}

#[test]
fn an_image_gives_its_bytes_back(rt: HostRuntime) -> Result<(), Fail> {
    let bytes = image(rt.alloc())?.into_bytes();
    assert!(rt; bytes.as_slice() == [0x93, 0x00, 0x50, 0x00, 0x34, 0x12].as_slice());
    Ok(())
}

#[test]
fn a_memory_begins_with_its_image(rt: HostRuntime) -> Result<(), Fail> {
    let image = image(rt.alloc())?;
    assert!(rt; image.words() == 4);
    let mut memory = Memory::new(rt.alloc(), &image)?;
    memory.put(1, 7);
    assert!(rt; memory.get(0) == 0x0050_0093);
    assert!(rt; memory.get(1) == 7);
    assert!(rt; memory.get(3) == 0);
    Ok(())
}

#[test]
fn an_image_above_its_memory_is_refused(rt: HostRuntime) -> Result<(), Fail> {
    for (length, fits) in [(15, true), (16, true), (17, false)] {
        let bytes = vec![in rt.alloc(); 0; length]?;
        let image = Image::flat(bytes, 4);
        assert!(rt; image.is_ok() == fits, "length {length}");
        if let Err(refused) = image {
            assert!(rt; refused == TooLarge);
        }
    }
    Ok(())
}

#[test]
fn lanes_are_replaced_alone(rt: HostRuntime) {
    let (word, lanes) = (0x1122_3344, 0xaabb_ccdd);
    let bytes = [0x1122_33dd, 0x1122_dd44, 0x11dd_3344, 0xdd22_3344];
    for address in 0..8 {
        let want = bytes[address as usize % 4];
        assert!(rt;
            merge_lanes(word, lanes, address, 1) == want,
            "a byte at {address}"
        );
    }
    for (address, want) in [(4, 0x1122_ccdd), (6, 0xccdd_3344)] {
        assert!(rt; address % 2 == 0);
        assert!(rt;
            merge_lanes(word, lanes, address, 2) == want,
            "a half word at {address}"
        );
    }
    assert!(rt; merge_lanes(word, lanes, 8, 4) == lanes);
}
