//! The program on words that mean nothing, whose stored run is refused.
//!
//! Tested: its stored run wants the status of a refusal, and an empty output.
#![tactic(auto)]

use rtr_program::run_program;
use std::process::ExitCode;

fn main(rt: HostRuntime) -> ExitCode {
    run_program(&rt, rt.stdin(), rt.stdout(), rt.stderr())
}
