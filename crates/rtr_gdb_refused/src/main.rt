//! The debugger's program on a recording that can't be opened.
//!
//! Tested: its stored run wants the acknowledgement of the first packet, and then the status of a read fault.
#![tactic(auto)]

use gdb_cli::run_program;
use std::process::ExitCode;

fn main(rt: HostRuntime) -> ExitCode {
    run_program(&rt, rt.stdin(), rt.stdout(), rt.stderr())
}
