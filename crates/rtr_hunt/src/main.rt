//! `rtr_hunt`, the run that breaks a claim on a program: one call of `hunt_cli`.
//!
//! Tested: its stored run.
#![tactic(auto)]

use hunt_cli::run_program;
use std::process::ExitCode;

fn main(rt: HostRuntime) -> ExitCode {
    run_program(&rt, rt.stdin(), rt.stdout(), rt.stderr())
}
