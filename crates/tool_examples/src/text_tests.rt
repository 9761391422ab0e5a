//! Texts from the tool's written description.
ghost use Rattle.std.specs.Prelude.{◌≡◌, ◌≤◌, ◌∷◌, [], IfOk, length};

use image_elf::ElfFault;
use image_mem::Image;
use min_certificate::CheckFailure;
use race_log::Recording;
use rtr_types::{CORES_MAX, Cut, Edge, Instr, Items, Params, WORDS_MAX};
use rv_core::{Core, Halt, LoadNote, Outcome};
use state_text::{
    Exit, check_text, cut_state_text, fault_text, logs_text, needed_text, state_text,
};
use std::alloc::{AllocError, Global};
use std::process::Abort;
use std::test::Fail;
use stride_vector::StrideVector;

// The image of these words, over a memory of `room` words.
fn image_of(alloc: Global, words: &[u32], room: u32) -> Result<Image, Fail>
    ensures { IfOk result (λ image. image.words ≡ room) }
{
    let mut bytes = Vec::new(alloc);
    for word in words {
        bytes.extend_from_slice(&word.to_le_bytes())?;
    }
    Ok(Image::flat(bytes, room)?)
}

/// A place for each core, as the length of an array.
const PLACES: usize = CORES_MAX as usize;

// Two cores that have each retired one instruction.
fn one_each() -> Cut {
    let mut counts = [0; PLACES];
    counts[0] = 1;
    counts[1] = 1;
    Cut { cores: 2, counts }
}

/// The exit has this status and this text.
fn is_told(rt: &impl Abort, exit: Exit, status: u8, text: &str) {
    assert!(rt; exit.status() == status, "{text}");
    assert!(rt; fault_text(&exit).bytes() == text.as_bytes(), "{text}");
}

// Every exit that bytes of a recording, words and streams have.
#[test]
fn exits(rt: HostRuntime) {
    is_told(&rt, Exit::Done, 0, "");
    is_told(&rt, Exit::Usage, 1, "rtr: usage\n");
    is_told(&rt, Exit::TooLarge, 2, "rtr: input too large\n");
    is_told(&rt, Exit::Bad { part: 4 }, 3, "rtr: bad input, part 4\n");
    is_told(
        &rt,
        Exit::Bad { part: 255 },
        3,
        "rtr: bad input, part 255\n",
    );
    is_told(&rt, Exit::ReadFault, 8, "rtr: read fault\n");
    is_told(&rt, Exit::WriteFault, 9, "rtr: write fault\n");
    is_told(&rt, Exit::OutOfMemory, 10, "rtr: out of memory\n");
}

// Every exit that a replay has, or a state at an instruction.
#[test]
fn exits_of_replays(rt: HostRuntime) {
    let cut = one_each();
    is_told(&rt, Exit::Stuck { cut }, 4, "rtr: stuck at 1 1\n");
    let (core, count) = (0, 3);
    is_told(
        &rt,
        Exit::Short { core, count },
        5,
        "rtr: core 0 stops at 3\n",
    );
    let first = Instr { core: 0, count: 2 };
    let second = Instr { core: 1, count: 2 };
    let open = Exit::Undetermined { first, second };
    is_told(&rt, open, 6, "rtr: no order from 0:2 to 1:2\n");
    let at = Instr { core: 0, count: 6 };
    is_told(&rt, Exit::NoInstr { at }, 12, "rtr: no instruction 0:6\n");
}

// Every exit that a certificate has, or a thin file.
#[test]
fn exits_of_checks(rt: HostRuntime) {
    let from = Instr { core: 0, count: 2 };
    let to = Instr { core: 1, count: 2 };
    let edge = Edge { from, to };
    let failed = Exit::CheckFailed(CheckFailure::NotConflict { edge });
    is_told(&rt, failed, 7, "rtr: edge 0:2 to 1:2 is no conflict\n");
    let failed = Exit::CheckFailed(CheckFailure::BadClock { core: 0, entry: 2 });
    is_told(&rt, failed, 7, "rtr: clock 2 of core 0 is wrong\n");
    let failed = Exit::CheckFailed(CheckFailure::NotNeeded { edge });
    is_told(&rt, failed, 7, "rtr: edge 0:2 to 1:2 is not needed\n");
    let failed = Exit::CheckFailed(CheckFailure::NotLeast { edge });
    is_told(
        &rt,
        failed,
        7,
        "rtr: edge 0:2 to 1:2 is not in the least log\n",
    );
    let (vectors, edges) = (5000, 9000);
    let many = Exit::TooMany { vectors, edges };
    is_told(
        &rt,
        many,
        13,
        "rtr: 5000 vectors with 9000 edges are too many\n",
    );
    is_told(
        &rt,
        Exit::NotShown { vector: 1 },
        14,
        "rtr: vector 1 is not shown needed\n",
    );
}

// Every fault of an ELF file.
#[test]
fn faults_of_elf_files(rt: HostRuntime) {
    is_told(
        &rt,
        Exit::Elf(ElfFault::NotElf),
        11,
        "rtr: not an ELF file\n",
    );
    is_told(
        &rt,
        Exit::Elf(ElfFault::Header),
        11,
        "rtr: ELF header not accepted\n",
    );
    let segment = Exit::Elf(ElfFault::Segment { index: 0 });
    is_told(&rt, segment, 11, "rtr: ELF segment 0 not accepted\n");
    let outside = Exit::Elf(ElfFault::Outside { index: 65_534 });
    is_told(&rt, outside, 11, "rtr: ELF segment 65534 outside memory\n");
    let overlap = Exit::Elf(ElfFault::Overlap { index: 1 });
    is_told(&rt, overlap, 11, "rtr: ELF segment 1 overlaps\n");
    is_told(
        &rt,
        Exit::Elf(ElfFault::Entry),
        11,
        "rtr: ELF entry not accepted\n",
    );
}

// The longest text has a count of ten digits for each core.
#[test]
fn longest_exit(rt: HostRuntime) {
    let cut = Cut {
        cores: CORES_MAX,
        counts: [u32::MAX; PLACES],
    };
    let text = fault_text(&Exit::Stuck { cut });
    assert_eq!(rt; text.bytes().len(), 13 + 11 * PLACES + 1);
}

// The most edges, and the most vectors, that a number of 64 bits tells.
#[test]
fn greatest_checks(rt: HostRuntime) -> Result<(), Fail> {
    let edges = check_text(rt.alloc(), u64::MAX)?;
    assert_eq!(rt;
        edges.as_slice(),
        "least 18446744073709551615 edges\n".as_bytes()
    );
    let vectors = needed_text(rt.alloc(), u64::MAX)?;
    assert_eq!(rt;
        vectors.as_slice(),
        "needed 18446744073709551615 vectors\n".as_bytes()
    );
    Ok(())
}

// The recording of one ECALL.
#[test]
fn logs_of_one_core(rt: HostRuntime) -> Result<(), Fail> {
    let alloc = rt.alloc();
    let recording = Recording {
        params: Params {
            cores: 1,
            limit: 10000,
            words: 16384,
        },
        image: Items::from_vec(vec![in alloc; 0x73, 0, 0, 0]?),
        totals: Items::from_vec(vec![in alloc; 1]?),
        reduced: Items::new(alloc),
        regulated: Items::new(alloc),
    };
    let text = logs_text(alloc, &recording)?;
    let lines = "cores 1 limit 10000 words 16384 image 4\ntotal 0 1\n\
        reduced 0\n\
        regulated 0 vectors 0 edges\n";
    assert_eq!(rt; text.as_slice(), lines.as_bytes());
    Ok(())
}

// Three stores that another core reads, recorded with strides and then without.
#[test]
fn logs_of_two_cores(rt: HostRuntime) -> Result<(), Fail> {
    let alloc = rt.alloc();
    let edges = Items::from_vec(vec![in alloc; (3, 3), (4, 4), (5, 7)]?);
    let long = StrideVector {
        n: 2,
        a0: 3,
        b0: 3,
        sa: 1,
        sb: 1,
    };
    let short = StrideVector {
        n: 1,
        a0: 5,
        b0: 7,
        sa: 0,
        sb: 0,
    };
    let vectors = Items::from_vec(vec![in alloc; long, short]?);
    let recording = Recording {
        params: Params {
            cores: 2,
            limit: 10000,
            words: 32,
        },
        image: Items::from_vec(vec![in alloc; 0; 48]?),
        totals: Items::from_vec(vec![in alloc; 6, 7]?),
        reduced: Items::from_vec(vec![in alloc; edges, Items::new(alloc)]?),
        regulated: Items::from_vec(vec![in alloc; Items::new(alloc), vectors]?),
    };
    let text = logs_text(alloc, &recording)?;
    let lines = "cores 2 limit 10000 words 32 image 48\ntotal 0 6\ntotal 1 7\n\
        reduced 3\nedge 0:3 1:3\nedge 0:4 1:4\nedge 0:5 1:7\n\
        regulated 2 vectors 3 edges\nvector 1 0 2 3 3 1 1\nvector 1 0 1 5 7\n";
    assert_eq!(rt; text.as_slice(), lines.as_bytes());
    Ok(())
}

// What one core without loads left in a memory of these words.
fn state_of(alloc: Global, core: Core, image: &Image, words: &[u32]) -> Result<Vec<u8>, AllocError>
    requires memory { image.now.words ≤ WORDS_MAX }
    requires words { length words.now ≡ image.now.words }
{
    let none = Items::new(alloc);
    let outcome = Outcome {
        cores: Items::from_vec(vec![in alloc; core]?),
        words: Items::from_vec(Vec::from_slice(alloc, words)?),
        loads: Items::from_vec(vec![in alloc; none]?),
    };
    state_text(alloc, &outcome, image, true)
}

// A core at which nothing but its stop is to be told.
fn core_at(count: u32, pc: u32, halt: Halt) -> Core {
    let mut core = Core::new(0, 10000);
    core.count = count;
    core.pc = pc;
    core.halt = halt;
    core
}

// Each stop, and words of the image that became 0.
#[test]
fn stops(rt: HostRuntime) -> Result<(), Fail> {
    // A load from address 2, no instruction, a jump to address 10, a load from address 64, and one
    // that does nothing.
    let program = [0x0020_2303, 0, 0x0020_006f, 0x0400_2303, 0x0000_0013];
    let image = image_of(rt.alloc(), &program, 8)?;
    let rows = [
        (1, 4, Halt::Exited, "exit retired 1 pc 00000004"),
        (1, 4, Halt::Broke, "break retired 1 pc 00000004"),
        (10000, 16, Halt::Running, "limit retired 10000 pc 00000010"),
        (0, 20, Halt::Running, "fetch retired 0 pc 00000014"),
        (1, 4, Halt::Running, "illegal retired 1 pc 00000004"),
        (2, 8, Halt::Running, "jump retired 2 pc 00000008"),
        (0, 0, Halt::Running, "align retired 0 pc 00000000"),
        (3, 12, Halt::Running, "address retired 3 pc 0000000c"),
        (4, 16, Halt::Running, "total retired 4 pc 00000010"),
    ];
    let memory =
        "mem 00000000 00000000\nmem 00000008 00000000\nmem 0000000c 00000000\nmem 00000010 00000000\n";
    for (count, pc, halt, line) in rows {
        let text = state_of(rt.alloc(), core_at(count, pc, halt), &image, &[0; 8])?;
        let expected = format!(in rt.alloc(); "core 0 {line}\n{memory}")?;
        assert_eq!(rt; text.as_slice(), expected.as_bytes());
    }
    Ok(())
}

// The first and the last register are told, and x0 is not.
#[test]
fn registers(rt: HostRuntime) -> Result<(), Fail> {
    let image = image_of(rt.alloc(), &[], 4)?;
    let mut core = core_at(0, 0, Halt::Running);
    core.registers[0] = 9;
    core.registers[1] = 0xdead_beef;
    core.registers[31] = 10;
    let text = state_of(rt.alloc(), core, &image, &[0, 0, 0, 255])?;
    let lines = "core 0 fetch retired 0 pc 00000000\ncore 0 x1 deadbeef\ncore 0 x31 0000000a\n\
        mem 0000000c 000000ff\n";
    assert_eq!(rt; text.as_slice(), lines.as_bytes());
    Ok(())
}

// The state at a cut: the counts of the cores that it has, and then the state.
#[test]
fn state_at_a_cut(rt: HostRuntime) -> Result<(), Fail> {
    let alloc = rt.alloc();
    let image = image_of(alloc, &[], 4)?;
    let none = Items::new(alloc);
    let outcome = Outcome {
        cores: Items::from_vec(vec![in alloc; core_at(1, 4, Halt::Running)]?),
        words: Items::from_vec(vec![in alloc; 0; 4]?),
        loads: Items::from_vec(vec![in alloc; none]?),
    };
    let mut cut = one_each();
    cut.counts[0] = 3;
    cut.counts[2] = 9;
    let text = cut_state_text(alloc, &cut, &outcome, &image, true)?;
    let lines = "cut 3 1\n\
        core 0 fetch retired 1 pc 00000004\n";
    assert_eq!(rt; text.as_slice(), lines.as_bytes());
    Ok(())
}

// The loads of one core of two.
fn loads_of(alloc: Global, note: LoadNote) -> Result<Items<LoadNote>, AllocError>
    ensures { IfOk result (λ notes. notes ≡ note ∷ []) }
{
    Ok(Items::from_vec(vec![in alloc; note]?))
}

// Two cores whose accesses of one word were ordered both ways, with their loads and without.
#[test]
fn state_of_two_cores(rt: HostRuntime) -> Result<(), Fail> {
    let alloc = rt.alloc();
    let image = image_of(alloc, &[], 20)?;
    let mut words = vec![in alloc; 0; 20]?;
    words[16] = 1;
    let first = LoadNote {
        count: 4,
        word: 16,
        value: 1,
    };
    let second = LoadNote {
        count: 2,
        word: 16,
        value: 7,
    };
    let outcome = Outcome {
        cores: Items::from_vec(vec![in alloc;
            core_at(5, 0x14, Halt::Exited),
            core_at(4, 0x20, Halt::Exited),
        ]?),
        words: Items::from_vec(words),
        loads: Items::from_vec(vec![in alloc; loads_of(alloc, first)?, loads_of(alloc, second)?]?),
    };
    let state = "core 0 exit retired 5 pc 00000014\n\
        core 1 exit retired 4 pc 00000020\n\
        mem 00000040 00000001\n";
    let loads = "load 0 4 00000040 00000001\n\
        load 1 2 00000040 00000007\n";
    let text = state_text(alloc, &outcome, &image, false)?;
    assert_eq!(rt; text.as_slice(), state.as_bytes());
    let text = state_text(alloc, &outcome, &image, true)?;
    let both = format!(in alloc; "{state}{loads}")?;
    assert_eq!(rt; text.as_slice(), both.as_bytes());
    Ok(())
}
