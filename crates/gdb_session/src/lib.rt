//! What each packet of a debugger is answered, and where the debugger stands behind it: a partner of `gdb_server`. It
//! has registers, memory and threads of a place, steps, breakpoints and watched ranges, forth and back, of all cores or
//! only some, and the user's commands.
//!
//! Proved: to every packet `Session::answer` answers the definition's place, wishes, points and payloads (`Answers`),
//! so every stop is at a closed cut (`cut`: `stands`). What a packet asks of the cores is an order (`resume_order`,
//! `step_back_order`, `go_back_order`), which `gdb_moves` obeys. `g`, `p` and `m` tell the registers and words of the
//! cut's state as `gdb_places` says. The command `lead` sets the core that leads, where it is there, or that none does
//! (`commanded_wishes`). A command of the user's is obeyed as `gdb_monitor` says, and what is told is answered. What is
//! refused leaves everything as it was. `vRun` and `R` come to the beginning (`RunsAgain`). `next` is the end for `D`
//! and `k` alone, and for `vKill` unless `!` was asked before. It is refused for want of memory alone, and then at a
//! closed cut of the same recording.
#![tactic(auto)]

mod answer;
mod commanded;
mod extended;
mod orders;
mod ranged;
mod session;
mod told;
mod wishes;

pub use session::Session;
pub use wishes::Wishes;
