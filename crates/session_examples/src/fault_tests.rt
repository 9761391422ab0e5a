//! Programs that end by each fault: two NOPs, and then an instruction.
use crate::rows::plays;
use gdb_session::Session;
use log_codec::read;
use replay_audit::{Audited, audit};
use rtr_types::Which;
use std::alloc::Global;
use std::test::Fail;

/// The recording up to the third instruction: `record --cores 1 --words 96`.
const FRONT: [u8; 17] = [
    0x52, 0x54, 0x52, 0x02, 0x01, 0x90, 0x4e, 0x60, 0x0c, 0x13, 0, 0, 0, 0x13, 0, 0, 0,
];

/// The third instruction, how many are retired, what is told of the fault, and pc there.
struct Fault {
    word: [u8; 4],
    total: u8,
    told: &'static str,
    pc: &'static str,
}

/// A fault, as a row.
macro_rules! fault {
    ($a:literal $b:literal $c:literal $d:literal, $total:literal => $told:literal, $pc:literal) => {
        Fault {
            word: [$a, $b, $c, $d],
            total: $total,
            told: $told,
            pc: $pc,
        }
    };
}

/// The kinds. The jump of the second one, and the EBREAK, are retired.
static FAULTS: [Fault; 6] = [
    // Illegal: all bits are set.
    fault!(0xff 0xff 0xff 0xff, 2 => "T04thread:1;", "08000000"),
    // Fetch: jalr x0, 0x700(x0), and there is no memory.
    fault!(0x67 0x00 0x00 0x70, 3 => "T0bthread:1;", "00070000"),
    // Jump: jalr x0, 2(x0).
    fault!(0x67 0x00 0x20 0x00, 2 => "T0athread:1;", "08000000"),
    // Align: lw x1, 2(x0).
    fault!(0x83 0x20 0x20 0x00, 2 => "T0athread:1;", "08000000"),
    // Address: lw x1, 0x400(x0).
    fault!(0x83 0x20 0x00 0x40, 2 => "T0bthread:1;", "08000000"),
    // EBREAK.
    fault!(0x73 0x00 0x10 0x00, 3 => "T05thread:1;", "08000000"),
];

/// The recording, audited by its reduced log.
fn faulted(alloc: Global, fault: &Fault) -> Result<Audited, Fail> {
    let mut bytes = Vec::new(alloc);
    bytes.extend_from_slice(&FRONT)?;
    bytes.extend_from_slice(&fault.word)?;
    bytes.push(fault.total)?;
    Ok(audit(alloc, read(alloc, bytes.as_slice())?, Which::Reduced)?)
}

/// The first packet with another answer, where the session goes to the fault, back, and steps there.
fn first_wrong(alloc: Global, fault: &Fault) -> Result<&'static str, Fail> {
    let audited = faulted(alloc, fault)?;
    let mut session = Session::begin(alloc, &audited)?;
    let rows = [
        ("vCont;c", fault.told),
        ("p20", fault.pc),
        ("bs", "T05thread:1;"),
        ("vCont;s:1", fault.told),
        ("p20", fault.pc),
    ];
    for (packet, answer) in rows {
        if !plays(alloc, &mut session, packet, answer)? {
            return Ok(packet);
        }
    }
    Ok("none")
}

#[test]
fn each_fault_is_told_at_its_own_pc(rt: HostRuntime) -> Result<(), Fail> {
    for fault in &FAULTS {
        assert_eq!(rt; first_wrong(rt.alloc(), fault)?, "none");
    }
    Ok(())
}
