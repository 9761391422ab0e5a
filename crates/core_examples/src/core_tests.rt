//! Single instructions from outside: their words were made by LLVM's assembler, and their results were worked out by
//! hand from the standard's text.
use image_mem::Image;
use rv_core::{Core, Need, Program, Stop};
use rv_decode::Op;
use std::alloc::Global;
use std::process::Abort;
use std::test::Fail;

// The image of these words, over a memory of `room` words.
fn image_of(alloc: Global, words: &[u32], room: u32) -> Result<Image, Fail> {
    let mut bytes = Vec::new(alloc);
    for word in words {
        bytes.extend_from_slice(&word.to_le_bytes())?;
    }
    Ok(Image::flat(bytes, room)?)
}

// ECALL and then a word that is no instruction.
#[test]
fn a_program_has_the_instructions_of_its_image(rt: HostRuntime) -> Result<(), Fail> {
    let program = Program::new(rt.alloc(), image_of(rt.alloc(), &[0x73, 0], 2)?)?;
    assert!(rt; matches!(program.op(0), Some(Op::Ecall)));
    assert!(rt; program.op(2).is_none());
    assert!(rt; program.op(4).is_none());
    assert!(rt; program.op(8).is_none());
    assert!(rt; program.into_image().words() == 2);
    Ok(())
}

// An image with this instruction at address 16, over 64 words, and a core that stands there with these
// values of x1 and x2.
fn at_16(alloc: Global, word: u32, x1: u32, x2: u32) -> Result<(Image, Core), Fail> {
    let image = image_of(alloc, &[0, 0, 0, 0, word], 64)?;
    let mut core = Core::new(0, 10);
    core.pc = 16;
    core.registers[1] = x1;
    core.registers[2] = x2;
    Ok((image, core))
}

// The core's next instruction needs this, and retires; the word's value after it.
fn retired(rt: &impl Abort, image: &Image, core: &mut Core, want: Need, old: u32) -> u32 {
    let need = core.need(image);
    assert!(rt; need == want);
    assert!(rt; !need.is_done());
    core.finish(image, old)
}

// The same of this instruction at address 16: the word's value after it, the core's pc and count, and x0 to x3.
fn left_of_one(
    rt: &impl Abort,
    alloc: Global,
    word: u32,
    (x1, x2): (u32, u32),
    want: Need,
    old: u32,
) -> Result<[u32; 7], Fail> {
    let (image, mut core) = at_16(alloc, word, x1, x2)?;
    let left = retired(rt, &image, &mut core, want, old);
    Ok([
        left,
        core.pc(),
        core.count(),
        core.reg(0),
        core.reg(1),
        core.reg(2),
        core.reg(3),
    ])
}

#[test]
fn results_go_to_the_register(rt: HostRuntime) -> Result<(), Fail> {
    // The word, x1, x2, and x3 after it.
    let steps = [
        (0xfff0_8193, 0, 0, 0xffff_ffff), // addi x3, x1, -1
        (0xfff0_a193, 0xffff_fffe, 0, 1), // slti x3, x1, -1
        (0xfff0_b193, 5, 0, 1), // sltiu x3, x1, -1
        (0xfff0_c193, 0x0f0f_0f0f, 0, 0xf0f0_f0f0), // xori x3, x1, -1
        (0x7ff0_e193, 0x8000_0000, 0, 0x8000_07ff), // ori x3, x1, 2047
        (0x8000_f193, 0x1234_5fff, 0, 0x1234_5800), // andi x3, x1, -2048
        (0x01f0_9193, 3, 0, 0x8000_0000), // slli x3, x1, 31
        (0x01f0_d193, 0x8000_0000, 0, 1), // srli x3, x1, 31
        (0x41f0_d193, 0x8000_0000, 0, 0xffff_ffff), // srai x3, x1, 31
        (0x0020_81b3, 0xffff_ffff, 2, 1), // add x3, x1, x2
        (0x4020_81b3, 0, 1, 0xffff_ffff), // sub x3, x1, x2
        (0x4020_d1b3, 0x8000_0000, 33, 0xc000_0000), // sra x3, x1, x2
        (0xffff_f1b7, 0, 0, 0xffff_f000), // lui x3, 0xfffff
        (0x8000_0197, 0, 0, 0x8000_0010), // auipc x3, 0x80000
        (0x0050_8013, 7, 0, 0), // addi x0, x1, 5
        (0x0ff0_000f, 7, 0, 0), // fence
    ];
    for (word, x1, x2, want) in steps {
        let left = left_of_one(&rt, rt.alloc(), word, (x1, x2), Need::Local, 9)?;
        assert!(rt; left == [0, 20, 1, 0, x1, x2, want], "{word:x}");
    }
    Ok(())
}

#[test]
fn jumps_and_branches_go_to_their_targets(rt: HostRuntime) -> Result<(), Fail> {
    // The word, x1, x2, and pc, x1 and x3 after it.
    let steps = [
        (0xffdf_f1ef, 1, 0, 12, 1, 20), // jal x3, -4
        (0x0080_01ef, 1, 0, 24, 1, 20), // jal x3, 8
        (0xffd0_81e7, 48, 0, 44, 48, 20), // jalr x3, -3(x1)
        (0x0040_80e7, 40, 0, 44, 20, 0), // jalr x1, 4(x1)
        (0x0020_8863, 5, 5, 32, 5, 0), // beq x1, x2, 16
        (0x0020_8863, 5, 6, 20, 5, 0), // beq x1, x2, 16
        (0xfe20_9ce3, 5, 6, 8, 5, 0), // bne x1, x2, -8
        (0x0020_c863, u32::MAX, 1, 32, u32::MAX, 0), // blt x1, x2, 16
        (0x0020_d863, u32::MAX, 1, 20, u32::MAX, 0), // bge x1, x2, 16
        (0x0020_e863, u32::MAX, 1, 20, u32::MAX, 0), // bltu x1, x2, 16
        (0x0020_f863, u32::MAX, 1, 32, u32::MAX, 0), // bgeu x1, x2, 16
    ];
    for (word, x1, x2, pc, x1_after, x3_after) in steps {
        let left = left_of_one(&rt, rt.alloc(), word, (x1, x2), Need::Local, 9)?;
        assert!(rt; left == [0, pc, 1, 0, x1_after, x2, x3_after], "{word:x}");
    }
    Ok(())
}

#[test]
fn loads_and_stores_act_on_lanes(rt: HostRuntime) -> Result<(), Fail> {
    let load = Need::Load { word: 8 };
    let part = Need::Store {
        word: 8,
        whole: false,
    };
    let whole = Need::Store {
        word: 8,
        whole: true,
    };
    // The word, x1, what it needs, the memory word's value before it, and x3 and that value after it.
    let steps = [
        (0x0030_8183, 32, load, 0x80ff_1234, 0xffff_ff80, 0x80ff_1234), // lb x3, 3(x1)
        (0x0020_9183, 32, load, 0x80ff_1234, 0xffff_80ff, 0x80ff_1234), // lh x3, 2(x1)
        (0xffc0_a183, 36, load, 0x80ff_1234, 0x80ff_1234, 0x80ff_1234), // lw x3, -4(x1)
        (0x0030_c183, 32, load, 0x80ff_1234, 0x80, 0x80ff_1234), // lbu x3, 3(x1)
        (0x0020_d183, 32, load, 0x80ff_1234, 0x80ff, 0x80ff_1234), // lhu x3, 2(x1)
        (0x0020_80a3, 32, part, 0x1122_3344, 0, 0x1122_dd44), // sb x2, 1(x1)
        (0x0020_9123, 32, part, 0x1122_3344, 0, 0xccdd_3344), // sh x2, 2(x1)
        (0xfe20_ae23, 36, whole, 0x1122_3344, 0, 0xaabb_ccdd), // sw x2, -4(x1)
    ];
    for (word, x1, want, old, x3, value) in steps {
        let left = left_of_one(&rt, rt.alloc(), word, (x1, 0xaabb_ccdd), want, old)?;
        assert!(rt; left == [value, 20, 1, 0, x1, 0xaabb_ccdd, x3], "{word:x}");
    }
    Ok(())
}

// The same of an atomic memory operation on the word at 32, which has the old value, where x2 is -6.
fn left_of_amo(rt: &impl Abort, alloc: Global, word: u32, old: u32) -> Result<[u32; 7], Fail> {
    left_of_one(
        rt,
        alloc,
        word,
        (32, 0xffff_fffa),
        Need::Amo { word: 8 },
        old,
    )
}

#[test]
fn atomics_act_on_their_word(rt: HostRuntime) -> Result<(), Fail> {
    // The word, and the memory word's value before and after it. Before it, x1 is 32 and x2 is -6.
    for (word, old, value) in [
        (0x0820_a1af, 10, 0xffff_fffa), // amoswap.w x3, x2, (x1)
        (0x0020_a1af, 10, 4), // amoadd.w x3, x2, (x1)
        (0x2020_a1af, 10, 0xffff_fff0), // amoxor.w x3, x2, (x1)
        (0x6020_a1af, 15, 10), // amoand.w x3, x2, (x1)
        (0x4020_a1af, 5, 0xffff_ffff), // amoor.w x3, x2, (x1)
        (0x8020_a1af, 10, 0xffff_fffa), // amomin.w x3, x2, (x1)
        (0xa020_a1af, 10, 10), // amomax.w x3, x2, (x1)
        (0xc020_a1af, 10, 10), // amominu.w x3, x2, (x1)
        (0xe020_a1af, 10, 0xffff_fffa), // amomaxu.w x3, x2, (x1)
    ] {
        let left = left_of_amo(&rt, rt.alloc(), word, old)?;
        assert!(rt; left == [value, 20, 1, 0, 32, 0xffff_fffa, old], "{word:x}");
    }
    // The word, and x1, x2 and x3 after it, where the memory word was 10.
    for (word, x1, x2, x3) in [
        (0x0020_a12f, 32, 10, 0), // amoadd.w x2, x2, (x1)
        (0x0020_a0af, 10, 0xffff_fffa, 0), // amoadd.w x1, x2, (x1)
        (0x0020_a02f, 32, 0xffff_fffa, 0), // amoadd.w x0, x2, (x1)
    ] {
        let left = left_of_amo(&rt, rt.alloc(), word, 10)?;
        assert!(rt; left == [4, 20, 1, 0, x1, x2, x3], "{word:x}");
    }
    assert!(rt; !Need::Amo { word: 8 }.is_whole());
    Ok(())
}

// Why a core stops at this instruction at address 16.
fn stop_at_16(alloc: Global, word: u32, x1: u32, x2: u32) -> Result<Stop, Fail> {
    let (image, core) = at_16(alloc, word, x1, x2)?;
    Ok(core.stop(&image))
}

#[test]
fn atomics_stop_by_their_address(rt: HostRuntime) -> Result<(), Fail> {
    // x1, and why amoadd.w x3, x2, (x1) stops over 64 words.
    for (x1, stop) in [
        (255, Stop::Align),
        (254, Stop::Align),
        (252, Stop::Total),
        (256, Stop::Address),
        (258, Stop::Align),
    ] {
        assert!(rt; stop_at_16(rt.alloc(), 0x0020_a1af, x1, 1)? == stop, "{x1}");
    }
    Ok(())
}

// A core of number 3 retires one more instruction that needs no memory.
fn go_on(rt: &impl Abort, core: &mut Core, image: &Image) {
    assert!(rt; !core.need(image).is_done());
    core.finish(image, 0);
}

// Core 3 over ADDI x5, x0, 1 and this word, at this limit, after so many instructions: why it stops there, and its
// number, count, pc, x5 and x10.
fn stood(
    rt: &impl Abort,
    alloc: Global,
    word: u32,
    limit: u32,
    retired: u32,
) -> Result<(Stop, [u32; 5]), Fail> {
    let image = image_of(alloc, &[0x0010_0293, word], 4)?;
    let mut core = Core::new(3, limit);
    for _one in 0..retired {
        go_on(rt, &mut core, &image);
    }
    let shown = [
        core.id() as u32,
        core.count(),
        core.pc(),
        core.reg(5),
        core.reg(10),
    ];
    Ok((core.stop(&image), shown))
}

#[test]
fn stops_retire_nothing(rt: HostRuntime) -> Result<(), Fail> {
    // The second word, and why the core stops there.
    let stops = [
        (0x0020_2303, Stop::Align), // lw x6, 2(x0)
        (0x0000_0000, Stop::Illegal),
        (0x0020_006f, Stop::Jump), // jal x0, 2
        (0x0400_2303, Stop::Address), // lw x6, 64(x0)
        (0x0410_2303, Stop::Align), // lw x6, 65(x0)
        (0x0000_100f, Stop::Illegal), // fence.i
        (0x1002_a32f, Stop::Illegal), // lr.w x6, (x5)
        (0x0002_a32f, Stop::Align), // amoadd.w x6, x0, (x5)
        (0x0ff0_000f, Stop::Total), // fence
    ];
    for (word, stop) in stops {
        let (why, shown) = stood(&rt, rt.alloc(), word, 10_000, 1)?;
        assert!(rt; why == stop, "{word:x}");
        assert!(rt; shown == [3, 1, 4, 1, 3], "{word:x}");
    }
    Ok(())
}

#[test]
fn the_last_instruction_decides(rt: HostRuntime) -> Result<(), Fail> {
    // The second word, and why the core stops after it, at a limit of 2 and with no third word.
    let stops = [
        (0x0000_0073, 2, Stop::Exit), // ecall
        (0x0010_0073, 2, Stop::Break), // ebreak
        (0x8330_000f, 2, Stop::Limit), // a fence with a mode
        (0x8330_000f, 3, Stop::Fetch),
    ];
    for (word, limit, stop) in stops {
        let (why, shown) = stood(&rt, rt.alloc(), word, limit, 2)?;
        assert!(rt; why == stop, "{word:x}");
        assert!(rt; shown == [3, 2, 8, 1, 3], "{word:x}");
    }
    Ok(())
}

// The mask and bits of this store at address 16, where x1 is 32.
fn masked(rt: &impl Abort, alloc: Global, word: u32, x2: u32) -> Result<(u32, u32), Fail> {
    let (image, core) = at_16(alloc, word, 32, x2)?;
    let need = core.need(&image);
    assert!(rt; matches!(need, Need::Store { .. }));
    Ok(core.store_mask(&image))
}

// A store of each size at byte 1, 2 or 0 of word 8, with x2 = 0xaabbccdd: its mask and bits.
#[test]
fn stores_have_masks(rt: HostRuntime) -> Result<(), Fail> {
    let stores = [
        (0x0020_80a3, 0x0000_ff00, 0x0000_dd00), // sb x2, 1(x1)
        (0x0020_9123, 0xffff_0000, 0xccdd_0000), // sh x2, 2(x1)
        (0x0020_a023, 0xffff_ffff, 0xaabb_ccdd), // sw x2, 0(x1)
    ];
    for (word, mask, bits) in stores {
        assert!(rt;
            masked(&rt, rt.alloc(), word, 0xaabb_ccdd)? == (mask, bits),
            "{word:x}"
        );
    }
    Ok(())
}

// Offsets that are no whole words: only a branch that is taken stops by its target.
#[test]
fn jumps_by_half_words_stop(rt: HostRuntime) -> Result<(), Fail> {
    let stops = [
        (0x0060_006f, Stop::Jump), // jal x0, 6
        (0x0020_8363, Stop::Jump), // beq x1, x2, 6
        (0x0020_9363, Stop::Total), // bne x1, x2, 6
        (0x0020_8463, Stop::Total), // beq x1, x2, 8
    ];
    for (word, stop) in stops {
        assert!(rt; stop_at_16(rt.alloc(), word, 5, 5)? == stop, "{word:x}");
    }
    Ok(())
}
