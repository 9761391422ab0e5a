//! The sessions, one by one.

use crate::session_calls::is_held;
use crate::session_rows::ROWS;
use std::test::Fail;

#[test]
fn each_session_is_held(rt: HostRuntime) -> Result<(), Fail> {
    for row in &ROWS {
        let held = is_held(rt.alloc(), row)?;
        assert!(rt; held, "{}", row.words);
    }
    Ok(())
}
