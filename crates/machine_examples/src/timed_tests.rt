//! A machine with times, in runs where copies are given up, forwarded or upgraded while another core waits
//! for them: each access finds what the accesses before it left.
use access_times::{NoCarry, Times};
use image_mem::Image;
use machine_ports::SteppedMachine;
use msi_machine::Machine;
use rtr_types::{Access, CORES_MAX, Instr, Params};
use std::alloc::Global;
use std::test::Fail;
use test_clerks::{Found, Noted, Noter, Read, Told, noted, noted_read};

/// The most steps of a run here: (2 * 2 + 4) for each of the 10 instructions at most.
const STEPS: usize = 80;

/// What the access leaves of its word, from what it was.
fn after_access(found: Found, access: Access) -> Found {
    let at = access.at;
    if access.kind.is_write() {
        return Found {
            write: noted(Some(at)),
            ..Found::nothing()
        };
    }
    let mut reads = found.reads;
    if at.core < CORES_MAX {
        reads[at.core as usize] = noted_read(at.core, Some(at.count));
    }
    Found { reads, ..found }
}

/// What these accesses left of the word: the last write, and each core's last read since.
fn left_by(accesses: &[Option<Told>], word: u32) -> Found {
    let mut found = Found::nothing();
    for told in accesses {
        if let Some(Told { access, .. }) = told
            && access.word == word
        {
            found = after_access(found, *access);
        }
    }
    found
}

/// Whether the access found what was left of its word: the write, and where it writes, each read.
fn fits(told: Told, left: Found) -> bool {
    let reads = !told.access.kind.is_write() || told.found.reads == left.reads;
    told.found.write == left.write && reads
}

/// Whether each of the accesses found what the ones before it left.
fn all_fit(accesses: &[Option<Told>]) -> bool {
    for place in 0..accesses.len() {
        if let Some(told) = accesses[place]
            && !fits(told, left_by(&accesses[..place], told.access.word))
        {
            return false;
        }
    }
    true
}

/// What the instruction's access found: the write, and the read by the core.
fn found_at(accesses: &[Option<Told>], at: Instr, reader: u8) -> Option<(Noted, Read)> {
    for told in accesses {
        if let Some(Told { access, found }) = told
            && access.at == at
            && reader < CORES_MAX
        {
            return Some((found.write, found.reads[reader as usize]));
        }
    }
    None
}

/// A run of two cores: its code and choices, and after these always the first move. Then how many accesses
/// it makes, and of one of them the write that it finds, and the count of the read by core `reader`.
struct Row {
    code: &'static [u32],
    choices: &'static [u32],
    accesses: usize,
    access: Instr,
    write: Option<Instr>,
    reader: u8,
    read: Option<u32>,
}

/// slli x5,x10,2; sw x10,32(x5); lw x6,32(x5); ecall
const FALSE_SHARING: [u32; 4] = [0x00251293, 0x02a2a023, 0x0202a303, 0x00000073];

/// bne x10,x0,+20; addi x5,x0,7; sw x5,64(x0); lw x6,64(x0); ecall; lw x7,64(x0); sw x10,64(x0); ecall
const BOTH_READ_AND_WRITE: [u32; 8] = [
    0x00051a63, 0x00700293, 0x04502023, 0x04002303, 0x00000073, 0x04002383, 0x04a02023, 0x00000073,
];

/// addi x5,x10,9; bne x10,x0,+12; sw x5,64(x0); ecall; lw x6,64(x0); lw x7,320(x0); ecall
const READER_EVICTS: [u32; 7] = [
    0x00950293, 0x00051663, 0x04502023, 0x00000073, 0x04002303, 0x14002383, 0x00000073,
];

/// addi x5,x10,9; bne x10,x0,+16; sw x5,64(x0); lw x7,320(x0); ecall; lw x6,64(x0); ecall
const WRITER_EVICTS: [u32; 7] = [
    0x00950293, 0x00051863, 0x04502023, 0x14002383, 0x00000073, 0x04002303, 0x00000073,
];

/// The same with sw x5,64(x0) in place of lw x6,64(x0).
const WRITER_EVICTS_FOR_A_WRITER: [u32; 7] = [
    0x00950293, 0x00051863, 0x04502023, 0x14002383, 0x00000073, 0x04502023, 0x00000073,
];

macro_rules! row {
    (
        $code:ident by $choices:tt
        => $accesses:literal, $core:literal : $count:literal after $write:expr, $reader:literal $read:expr
    ) => {
        Row {
            code: &$code,
            choices: &$choices,
            accesses: $accesses,
            access: Instr { core: $core, count: $count },
            write: $write,
            reader: $reader,
            read: $read,
        }
    };
}

static ROWS: [Row; 7] = [
    // Each core has its own word of one block.
    row!(FALSE_SHARING by [0, 1, 0, 1, 0, 1, 0, 1, 0, 1, 0, 1] =>
        4, 1:2 after None, 0 None),
    // Core 1's upgrade takes core 0's copy back.
    row!(BOTH_READ_AND_WRITE by [0, 0, 0, 1, 1, 1, 1, 1, 1, 1, 1, 1, 1, 1, 1, 1] =>
        4, 1:3 after Some(Instr { core: 0, count: 3 }), 1 Some(2)),
    // Core 0 reads the word again between the two stores.
    row!(BOTH_READ_AND_WRITE by [1, 1, 1, 1, 0, 0, 0, 1, 1, 1, 1, 0] =>
        4, 1:3 after Some(Instr { core: 0, count: 3 }), 0 Some(4)),
    // Core 1's upgrade waits while core 0's store takes its read copy back.
    row!(BOTH_READ_AND_WRITE by [1, 1, 1, 1, 0, 0, 0, 0] =>
        4, 0:3 after None, 1 Some(2)),
    // Core 1's eviction of its read copy is stalled while core 0's store takes it back.
    row!(READER_EVICTS by [1, 1, 1, 1, 1, 0, 0, 0, 0, 0, 0, 0, 0] =>
        3, 0:3 after None, 1 Some(3)),
    // Core 0's eviction of its written copy is stalled while core 1's load or store is forwarded to it.
    row!(WRITER_EVICTS by [0, 0, 0, 1, 1, 1, 1, 1, 0, 1, 0, 0] =>
        3, 1:3 after Some(Instr { core: 0, count: 3 }), 0 None),
    row!(WRITER_EVICTS_FOR_A_WRITER by [0, 0, 0, 1, 1, 1, 1, 1, 0, 1, 0, 0] =>
        3, 1:3 after Some(Instr { core: 0, count: 3 }), 0 None),
];

/// The bytes of the code, each word's lowest first.
fn bytes_of(alloc: Global, code: &[u32]) -> Result<Vec<u8>, Fail> {
    let mut bytes = Vec::new(alloc);
    for word in code {
        bytes.extend_from_slice(&word.to_le_bytes())?;
    }
    Ok(bytes)
}

/// What a noter keeps of the row's run; nothing where it didn't end.
fn noted_in(alloc: Global, row: &Row) -> Result<Noter, Fail> {
    let image = Image::flat(bytes_of(alloc, row.code)?, 96)?;
    let params = Params {
        cores: 2,
        limit: 10,
        words: 96,
    };
    let mut machine = Machine::<Times, NoCarry>::new(alloc, image, params)?;
    let mut clerk = Noter::new();
    for step in 0..STEPS {
        let choice = row.choices.get(step).copied().unwrap_or(0);
        machine.make_room()?;
        if !machine.done() && machine.has_room() {
            machine.cores_are_numbered();
            let _ = machine.step_timed(choice, &mut clerk);
        }
    }
    if !machine.done() {
        return Ok(Noter::new());
    }
    Ok(clerk)
}

/// What the row says of its access.
fn said(row: &Row) -> Option<(Noted, Read)> {
    Some((noted(row.write), noted_read(row.reader, row.read)))
}

#[test]
fn each_access_finds_what_is_left(rt: HostRuntime) -> Result<(), Fail> {
    for row in &ROWS {
        let noter = noted_in(rt.alloc(), row)?;
        assert!(rt; noter.kept == row.accesses);
        assert!(rt; all_fit(&noter.told));
        assert!(rt; found_at(&noter.told, row.access, row.reader) == said(row));
    }
    Ok(())
}
