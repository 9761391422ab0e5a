//! The rows, one by one.

use crate::calls::ask;
use crate::core_rows::ROWS;
use std::test::Fail;

#[test]
fn each_row_is_answered(rt: HostRuntime) -> Result<(), Fail> {
    for row in &ROWS {
        let answer = ask(rt.alloc(), row)?;
        assert_eq!(rt; answer.status, row.status);
        assert_eq!(rt; answer.given, row.given);
        assert_eq!(rt; answer.sum, row.sum);
        assert!(rt; answer.report.as_slice() == row.report.as_bytes());
    }
    Ok(())
}
