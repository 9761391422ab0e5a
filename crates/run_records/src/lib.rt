//! What a run is recorded as: both logs and the recording, what the recorder's clerk holds, and what the recorder comes
//! to along every run. All are functions of image, parameters and schedule. The crate has definitions and laws alone,
//! and stands on no code of the machine.
//!
//! Proved: the recording of every run is valid, so its spelling is read back as it
//! (`every_recording_is_read_back_and_least`, clause `recorded`). Its reduced log is the least set of the run's
//! accesses (`least`). Its regulated log has each pair's greedy vectors of these edges, by whatever counts what is
//! known in the run (`regulated`). `clocks_and_times_are_exact` at every retirement of every run. After each choice of
//! a run, until its end, the recorder's machine and reduction stand where the run does. So does what is noted of its
//! retirements (`every_run_is_recorded`).
#![tactic(auto)]

pub mod laws;
