//! The debugger's program on a recording of many pieces.
//!
//! Tested: in its stored run a packet with a wrong sum and an interrupt come, and then it goes to the end of a run, and
//! wants memory as the slow model leaves it.
#![tactic(auto)]

use gdb_cli::run_program;
use std::process::ExitCode;

fn main(rt: HostRuntime) -> ExitCode {
    run_program(&rt, rt.stdin(), rt.stdout(), rt.stderr())
}
