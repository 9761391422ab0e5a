//! Results at the edges, which were computed in C: of the arithmetic and logical instructions, and of the atomic
//! memory operations that compare.
use image_mem::Image;
use rv_core::Core;
use rv_decode::{Alu, AmoOp, Op, encode, fits};
use std::alloc::Global;
use std::process::Abort;
use std::test::Fail;

// The words of all bits, of all but the top one, and of that one alone.
const ONES: u32 = 0xffff_ffff;

const MOST: u32 = 0x7fff_ffff;

const TOP: u32 = 0x8000_0000;

// 0, 1, -1, 2^31 - 1 and -2^31.
const EDGES: [u32; 5] = [0, 1, ONES, MOST, TOP];

// What an operation leaves, by its left and then by its right operand.
type Table = [[u32; 5]; 5];

macro_rules! table {
    ($([$($word:tt)+])+) => { [$([$($word),+]),+] };
}

// What the arithmetic or logical instruction leaves in x3, by x1 and then by x2.
macro_rules! results {
    ($alu:ident: $($rows:tt)+) => {
        (Op::AluReg { alu: Alu::$alu, rd: 3, rs1: 1, rs2: 2 }, table!($($rows)+))
    };
}

// What the atomic memory operation leaves in its word, by the word's old value and then by x2.
macro_rules! exchanges {
    ($op:ident: $($rows:tt)+) => {
        (Op::Amo { op: AmoOp::$op, rd: 3, rs1: 1, rs2: 2 }, table!($($rows)+))
    };
}

const RESULTS: [(Op, Table); 10] = [
    results!(Add: [0 1 ONES MOST TOP] [1 2 0 TOP 0x8000_0001] [ONES 0 0xffff_fffe 0x7fff_fffe MOST]
        [MOST TOP 0x7fff_fffe 0xffff_fffe ONES] [TOP 0x8000_0001 MOST ONES 0]),
    results!(Sub: [0 ONES 1 0x8000_0001 TOP] [1 0 2 0x8000_0002 0x8000_0001] [ONES 0xffff_fffe 0 TOP MOST]
        [MOST 0x7fff_fffe TOP 0 ONES] [TOP MOST 0x8000_0001 1 0]),
    results!(Sll: [0 0 0 0 0] [1 2 TOP TOP 1] [ONES 0xffff_fffe TOP TOP ONES] [MOST 0xffff_fffe TOP TOP MOST]
        [TOP 0 0 0 TOP]),
    results!(Slt: [0 1 0 1 0] [0 0 0 1 0] [1 1 0 1 0] [0 0 0 0 0] [1 1 1 1 0]),
    results!(Sltu: [0 1 1 1 1] [0 0 1 1 1] [0 0 0 0 0] [0 0 1 0 1] [0 0 1 0 0]),
    results!(Xor: [0 1 ONES MOST TOP] [1 0 0xffff_fffe 0x7fff_fffe 0x8000_0001] [ONES 0xffff_fffe 0 TOP MOST]
        [MOST 0x7fff_fffe TOP 0 ONES] [TOP 0x8000_0001 MOST ONES 0]),
    results!(Srl: [0 0 0 0 0] [1 0 0 0 1] [ONES MOST 1 1 ONES] [MOST 0x3fff_ffff 0 0 MOST]
        [TOP 0x4000_0000 1 1 TOP]),
    results!(Sra: [0 0 0 0 0] [1 0 0 0 1] [ONES ONES ONES ONES ONES] [MOST 0x3fff_ffff 0 0 MOST]
        [TOP 0xc000_0000 ONES ONES TOP]),
    results!(Or: [0 1 ONES MOST TOP] [1 1 ONES MOST 0x8000_0001] [ONES ONES ONES ONES ONES]
        [MOST MOST ONES MOST ONES] [TOP 0x8000_0001 ONES ONES TOP]),
    results!(And: [0 0 0 0 0] [0 1 1 1 0] [0 1 ONES MOST TOP] [0 1 MOST MOST 0] [0 0 TOP 0 TOP]),
];

const EXCHANGES: [(Op, Table); 4] = [
    exchanges!(Min: [0 0 ONES 0 TOP] [0 1 ONES 1 TOP] [ONES ONES ONES ONES TOP] [0 1 ONES MOST TOP]
        [TOP TOP TOP TOP TOP]),
    exchanges!(Max: [0 1 0 MOST 0] [1 1 1 MOST 1] [0 1 ONES MOST ONES] [MOST MOST MOST MOST MOST]
        [0 1 ONES MOST TOP]),
    exchanges!(Minu: [0 0 0 0 0] [0 1 1 1 1] [0 1 ONES MOST TOP] [0 1 MOST MOST MOST] [0 1 TOP MOST TOP]),
    exchanges!(Maxu: [0 1 ONES MOST TOP] [1 1 ONES MOST TOP] [ONES ONES ONES ONES ONES] [MOST MOST ONES MOST TOP]
        [TOP TOP ONES TOP TOP]),
];

// The image of this instruction alone.
fn image_of(rt: &impl Abort, alloc: Global, op: &Op) -> Result<Image, Fail> {
    assert!(rt; fits(op));
    let bytes = encode(op).to_le_bytes().to_vec(alloc)?;
    Ok(Image::flat(bytes, 16)?)
}

// A core before the image's one instruction, with these values of x1 and x2.
fn core_with(x1: u32, x2: u32) -> Core {
    let mut core = Core::new(0, 10);
    core.registers[1] = x1;
    core.registers[2] = x2;
    core
}

// What the operation leaves in x3 of x1 and x2.
fn result_of(rt: &impl Abort, image: &Image, x1: u32, x2: u32) -> u32 {
    let mut core = core_with(x1, x2);
    assert!(rt; !core.need(image).is_done());
    core.finish(image, 0);
    core.reg(3)
}

// What the operation leaves in the word at 4 that had `old`, where x2 is the value.
fn left_of(rt: &impl Abort, image: &Image, old: u32, value: u32) -> u32 {
    let mut core = core_with(4, value);
    assert!(rt; !core.need(image).is_done());
    let left = core.finish(image, old);
    assert!(rt; core.reg(3) == old);
    left
}

// The row has what the operation makes of the left value and of each right one.
fn row_is(rt: &impl Abort, image: &Image, op: &Op, left: u32, row: &[u32; 5]) {
    for (right, want) in EDGES.iter().zip(row.iter()) {
        let found = match op {
            Op::Amo { .. } => left_of(rt, image, left, *right),
            _ => result_of(rt, image, left, *right),
        };
        assert!(rt; found == *want, "{left:x} and {right:x}");
    }
}

fn table_is(rt: &impl Abort, alloc: Global, op: &Op, table: &Table) -> Result<(), Fail> {
    let image = image_of(rt, alloc, op)?;
    for (left, row) in EDGES.iter().zip(table.iter()) {
        row_is(rt, &image, op, *left, row);
    }
    Ok(())
}

#[test]
fn operations_at_the_edges(rt: HostRuntime) -> Result<(), Fail> {
    for (op, results) in RESULTS.iter() {
        table_is(&rt, rt.alloc(), op, results)?;
    }
    Ok(())
}

#[test]
fn exchanges_at_the_edges(rt: HostRuntime) -> Result<(), Fail> {
    for (op, exchanges) in EXCHANGES.iter() {
        table_is(&rt, rt.alloc(), op, exchanges)?;
    }
    Ok(())
}
