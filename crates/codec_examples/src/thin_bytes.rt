//! Recordings whose regulated logs were written by hand.
ghost use Rattle.std.specs.Prelude.{IfOk};
ghost use Rattle.vector_reduce.specs.Validity.{IsThin};

use log_codec::read;
use replay_audit::audit;
use rtr_types::Which;
use std::alloc::Global;
use std::test::Fail;
use vector_reduce::{Thinned, thin};

/// What stands before the regulated log of three cores, which end after 5, 5 and 6 instructions: 1:3 loads
/// word 16, 1:4 stores word 32, 2:4 loads word 32, 2:5 loads word 16, and 0:4 stores word 16. The reduced log
/// has the edges from 1:4 to 2:4 and from 2:5 to 0:4. The version is the byte at 3.
pub const FRONT: [u8; 65] = [
    0x52, 0x54, 0x52, 2, 3, 0x90, 0x4e, 0x40, 0x2c, 0x93, 2, 0x10, 0, 0x63, 8, 0x55, 0, 0x63, 0x1c,
    5, 0, 0x23, 0x20, 0x50, 4, 0x73, 0, 0, 0, 3, 0x23, 0, 4, 0x23, 0x20, 0x50, 8, 0x73, 0, 0, 0,
    0x83, 0x23, 0, 8, 3, 0x23, 0, 4, 0x73, 0, 0, 0, 5, 5, 6, 1, 4, 2, 5, 0, 1, 4, 1, 4,
];

/// The bytes with others after them.
pub fn joined(alloc: Global, front: &[u8], rest: &[u8]) -> Result<Vec<u8>, Fail> {
    let mut bytes = Vec::from_slice(alloc, front)?;
    bytes.extend_from_slice(rest)?;
    Ok(bytes)
}

/// A regulated log, what thinning leaves of it, and what shows its vectors needed.
pub struct Row {
    pub before: &'static [u8],
    pub after: &'static [u8],
    pub shown: &'static [u8],
}

/// In turn: 1:3 before 0:4 is implied by the two other vectors together and by neither alone; the same with two
/// positions of each of two vectors; the second position of the first vector isn't implied.
pub static ROWS: [Row; 3] = [
    Row {
        before: &[0, 0, 1, 1, 3, 4, 1, 1, 4, 4, 1, 1, 5, 4, 0],
        after: &[0, 0, 0, 1, 1, 4, 4, 1, 1, 5, 4, 0],
        shown: &[0, 0, 0, 4, 0, 4, 0, 0],
    },
    Row {
        before: &[0, 0, 1, 2, 3, 4, 1, 1, 1, 1, 4, 4, 1, 2, 5, 4, 1, 1, 0],
        after: &[0, 0, 0, 1, 1, 4, 4, 1, 2, 5, 4, 1, 1, 0],
        shown: &[0, 0, 0, 4, 0, 4, 0, 0],
    },
    Row {
        before: &[0, 0, 1, 2, 3, 4, 2, 1, 1, 1, 4, 4, 1, 1, 5, 4, 0],
        after: &[0, 0, 1, 2, 3, 4, 2, 1, 1, 1, 4, 4, 1, 1, 5, 4, 0],
        shown: &[1, 5, 4, 5, 0, 0, 0, 4, 0, 4, 3, 0],
    },
];

/// What thinning gives.
pub fn thinned(alloc: Global, bytes: &[u8]) -> Result<Thinned, Fail>
    ensures { IfOk result IsThin }
{
    let audited = audit(alloc, read(alloc, bytes)?, Which::Regulated)?;
    Ok(thin(alloc, &audited)?)
}
