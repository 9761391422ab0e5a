//! Packets and answers of real sessions, and the bytes between them, chunk by chunk. It has tests alone, and stands
//! apart so that the crate of packets is proved without them.
//!
//! Tested, not proved of gdb: but for fourteen, each distinct packet that is text of thirteen sessions of gdb 13.1 asks
//! what gdb means by it. The fourteen are thirteen reads and one breakpoint of the session with sixteen cores. 65
//! others are asked too, malformed and unknown ones among them. 21 chunks of bytes over a line have their answers to
//! the byte, and the stops that the sessions have are spelled so.
#![tactic(auto)]

#[cfg(test)]
mod framing_tests;
#[cfg(test)]
mod list_rows;
#[cfg(test)]
mod packet_tests;
#[cfg(test)]
mod plain_rows;
#[cfg(test)]
mod reply_tests;
#[cfg(test)]
mod rows;
#[cfg(test)]
mod server_tests;
