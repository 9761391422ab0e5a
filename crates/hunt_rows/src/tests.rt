//! The rows, one by one.

use crate::calls::ask;
use crate::rows::{BUFFERED, FOUND, REFUSED, SMALL, TABLES, WORDS};
use std::test::Fail;

/// Each row is answered as it says.
macro_rules! each_is_answered {
    ($rt:ident, $rows:ident) => {
        for row in &$rows {
            let answer = ask(&$rt, $rt.alloc(), row)?;
            assert!($rt; answer.status == row.status, "{}", row.words);
            assert!($rt; answer.given.as_slice() == row.given.as_bytes(), "{}", row.words);
            assert!($rt; answer.report.as_slice() == row.report.as_bytes(), "{}", row.words);
        }
    };
}

#[test]
fn runs_that_are_found(rt: HostRuntime) -> Result<(), Fail> {
    each_is_answered!(rt, FOUND);
    Ok(())
}

#[test]
fn words_of_runs(rt: HostRuntime) -> Result<(), Fail> {
    each_is_answered!(rt, WORDS);
    Ok(())
}

#[test]
fn runs_made_small(rt: HostRuntime) -> Result<(), Fail> {
    each_is_answered!(rt, SMALL);
    Ok(())
}

#[test]
fn tables(rt: HostRuntime) -> Result<(), Fail> {
    each_is_answered!(rt, TABLES);
    Ok(())
}

#[test]
fn runs_of_cores_with_buffers(rt: HostRuntime) -> Result<(), Fail> {
    each_is_answered!(rt, BUFFERED);
    Ok(())
}

#[test]
fn refusals(rt: HostRuntime) -> Result<(), Fail> {
    each_is_answered!(rt, REFUSED);
    Ok(())
}
