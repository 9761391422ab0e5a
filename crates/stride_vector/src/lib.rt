//! Strided vectors: several edges from one core to another, equally far apart on both.
//!
//! Proved: `last`, `position`, `next` and `source_of` answer what the definition says of a vector. `vector_laws`: its
//! edges rise on both cores.
#![tactic(auto)]

ghost use Rattle.std.specs.Prelude.{◌≡◌, ℕ, ◌<◌, ◌^◌, Some, IfSome};
ghost use Rattle.std.specs.Option.{SomeIff};
ghost use Rattle.stride_vector.specs.Vectors.{IsVector, position_of, last_of, EdgesPlaced, PositionsRise};

/// The `n` edges from count `a0 + k * sa` of a source core to count `b0 + k * sb` of a target core,
/// for `k` from 0 up to `n`. Where `n` is 1 both strides are 0.
#[derive(Clone, Copy, Debug, Default, PartialEq, Eq)]
pub struct StrideVector {
    pub n: u32,
    pub a0: u32,
    pub b0: u32,
    pub sa: u32,
    pub sb: u32,
}

impl StrideVector {
    /// The last position, the source's count first.
    pub fn last(&self) -> (u32, u32)
        requires { IsVector self.now }
        ensures { result ≡ last_of self.now }
    {
        self.position(self.n - 1)
    }

    /// Position `k`, the source's count first.
    pub fn position(&self, k: u32) -> (u32, u32)
        requires vector { IsVector self.now }
        requires within { k < self.now.n }
        ensures { result ≡ position_of self.now k }
    {
        (self.a0 + k * self.sa, self.b0 + k * self.sb)
    }

    /// The position after the last, where there are strides to it and both counts are below 2^32.
    pub fn next(&self) -> Option<(u32, u32)>
        requires { IsVector self.now }
        ensures { let p = position_of self.now self.now.n in
            SomeIff result ((1 < self.now.n) × (p.0 < 2 ^ 32) × (p.1 < 2 ^ 32)) p }
    {
        if self.n == 1 {
            return None;
        }
        let (a, b) = self.last();
        Some((a.checked_add(self.sa)?, b.checked_add(self.sb)?))
    }

    /// The count of the source at the target's count `b`, where a position has that.
    pub fn source_of(&self, b: u32) -> Option<u32>
        requires { IsVector self.now }
        ensures found { IfSome result (λ a. (k : ℕ) × (k < self.now.n) × (position_of self.now k ≡ (a, b))) }
        ensures only { (k : ℕ) → k < self.now.n → (position_of self.now k).1 ≡ b →
            result ≡ Some (position_of self.now k).0 }
    {
        let rise = b.checked_sub(self.b0)?;
        if rise == 0 {
            return Some(self.a0);
        }
        if self.n == 1 {
            return None;
        }
        if rise % self.sb != 0 {
            return None;
        }
        let k = rise / self.sb;
        if k < self.n {
            Some(self.a0 + k * self.sa)
        } else {
            None
        }
    }
}

/// The list of a vector's edges has its positions in their order, and both counts rise along it.
pub fn vector_laws()
    ensures edges { EdgesPlaced }
    ensures rise { PositionsRise }
{}
