//! What a packet asks, as a row spells it.
use gdb_packets::{Action, Plain, PointKind};

/// What a packet asks.
#[derive(Drop)]
pub enum Asked {
    Plain(Plain),
    Resume(&'static [Action]),
    Command(&'static str),
}

/// A packet's payload, and what it asks.
pub struct Row {
    pub payload: &'static str,
    pub asks: Asked,
}

/// A packet that asks for nothing with a list in it, as a row.
macro_rules! asks {
    ($payload:literal => $asks:expr) => {
        Row { payload: $payload, asks: Asked::Plain($asks) }
    };
}

pub(crate) use asks;

/// A point: what follows `Z` in the packet that sets it and `z` in the one that clears it, what it stops at, and where.
pub struct Point {
    pub packet: &'static str,
    pub kind: PointKind,
    pub at: u64,
}
