//! Numbers as bytes, vectors, lists, streams, schedules, instruction words, images, ELF files, single instructions and
//! generated programs, with values from outside. It has tests alone.
//!
//! Tested: `varint_core`, `stride_vector`, `rtr_types`, `roomy_lists`, `load_lists`, `rtr_io`, `schedule_pick`,
//! `rv_decode`, `image_mem`, `image_elf`, `rv_core` and `trace_gen`, by calls with values from outside.
#![tactic(auto)]

#[cfg(test)]
mod core_tests;
#[cfg(test)]
mod decode_tests;
#[cfg(test)]
mod edge_tests;
#[cfg(test)]
mod elf_tests;
#[cfg(test)]
mod list_tests;
#[cfg(test)]
mod memory_tests;
#[cfg(test)]
mod number_tests;
#[cfg(test)]
mod schedule_tests;
#[cfg(test)]
mod stream_tests;
#[cfg(test)]
mod trace_tests;
#[cfg(test)]
mod vector_tests;
