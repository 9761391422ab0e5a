//! The hunt's program on words that mean nothing.
//!
//! Tested: its stored run wants the status of a refusal, and an empty output.
#![tactic(auto)]

use hunt_cli::run_program;
use std::process::ExitCode;

fn main(rt: HostRuntime) -> ExitCode {
    run_program(&rt, rt.stdin(), rt.stdout(), rt.stderr())
}
