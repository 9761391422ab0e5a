//! A flat state at the start, with room for one block.
use flat_start::{make_entry, start};
use image_mem::Image;
use std::test::Fail;

/// addi x5,x10,5; sw x5,32(x0); ecall
const STORES: [u8; 12] = [
    0x93, 0x02, 0x55, 0x00, 0x23, 0x20, 0x50, 0x02, 0x73, 0x00, 0x00, 0x00,
];

#[test]
fn a_new_entry_has_the_images_words(rt: HostRuntime) -> Result<(), Fail> {
    let alloc = rt.alloc();
    let image = Image::flat(STORES.as_slice().to_vec(alloc)?, 16)?;
    let mut flat = start(alloc, image, 2, 100)?;
    let place = make_entry(&mut flat, 0)?;
    let words = flat.home[place as usize].words;
    assert!(rt; words == [0x0055_0293, 0x0250_2023, 0x0000_0073, 0]);
    assert!(rt; (flat.nodes.len(), flat.home.len()) == (2, 1));
    Ok(())
}
