//! Sessions of gdb, packet by packet.
use crate::crash::crash;
use crate::crash_rows::CRASH;
use crate::rows::first_wrong;
use gdb_session::Session;
use std::test::Fail;

// A program that ends by a fault, and back from there to the store that was too late.
#[test]
fn a_fault_and_back(rt: HostRuntime) -> Result<(), Fail> {
    let audited = crash(rt.alloc())?;
    let mut session = Session::begin(rt.alloc(), &audited)?;
    assert_eq!(rt; first_wrong(rt.alloc(), &mut session, CRASH)?, None);
    Ok(())
}
