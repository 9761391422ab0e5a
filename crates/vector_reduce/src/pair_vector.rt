//! Vectors with the cores between which they lead.
ghost use Rattle.std.specs.Prelude.{◌≡◌, ◌<◌, IfOk};
ghost use Rattle.stride_vector.specs.Vectors.{IsVector};
ghost use Rattle.race_log.specs.Validity.{Valid};
ghost use Rattle.vector_reduce.specs.Vectors.{edge_at, led_between, vectors_of};

use part_lists::{Led, led_of};
use race_log::Recording;
use rtr_types::{Edge, Instr, Items};
use std::alloc::{AllocError, Global};
use stride_vector::StrideVector;

/// A strided vector, and the cores from which and to which its edges lead.
#[derive(Clone, Copy)]
pub struct PairVector {
    pub from: u8,
    pub to: u8,
    pub vector: StrideVector,
}

impl PairVector {
    /// The edge at a position, counted from 0.
    pub fn edge(&self, position: u32) -> Edge
        requires vector { IsVector self.now.vector }
        requires within { position < self.now.vector.n }
        ensures { result ≡ edge_at self.now position }
    {
        let (source, target) = self.vector.position(position);
        Edge {
            from: Instr {
                core: self.from,
                count: source,
            },
            to: Instr {
                core: self.to,
                count: target,
            },
        }
    }
}

impl Led<StrideVector> for PairVector {
    ghost between = { led_between };

    fn between(from: u8, to: u8, vector: StrideVector) -> Self {
        PairVector { from, to, vector }
    }
}

/// The vectors of the regulated log, by pair and within a pair in their order.
pub fn vectors_of(alloc: Global, recording: &Recording) -> Result<Items<PairVector>, AllocError>
    requires { Valid recording.now }
    ensures { IfOk result (λ list. list ≡ vectors_of recording.now) }
{
    led_of(
        alloc,
        recording.params.cores,
        recording.regulated.as_slice(),
    )
}
