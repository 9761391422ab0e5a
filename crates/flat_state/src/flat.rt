//! The flat state.
use crate::block::HomeBlock;
use crate::node::Node;
use rv_core::Program;

/// The program, its cores at their ports, and the entries of the blocks that were asked for, each by its place.
#[derive(Drop)]
pub struct Flat {
    pub program: Program,
    pub nodes: Vec<Node>,
    pub home: Vec<HomeBlock>,
}
