//! `rtr_gdb`, recorded runs in a debugger: one call of `gdb_cli`.
//!
//! Tested: its stored run.
#![tactic(auto)]

use gdb_cli::run_program;
use std::process::ExitCode;

fn main(rt: HostRuntime) -> ExitCode {
    run_program(&rt, rt.stdin(), rt.stdout(), rt.stderr())
}
