//! The nodes of the order graph, and its edges.

/// One retired instruction: the core that retired it, below the number of cores, and its count on
/// that core in program order. Counts begin at 1.
#[derive(Clone, Copy, Debug, Default, PartialEq, Eq)]
pub struct Instr {
    pub core: u8,
    pub count: u32,
}

/// An edge of an order log: `from` comes before `to`.
#[derive(Clone, Copy, Debug, Default, PartialEq, Eq)]
pub struct Edge {
    pub from: Instr,
    pub to: Instr,
}
