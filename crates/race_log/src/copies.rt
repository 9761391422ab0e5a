//! Copies of recordings.
ghost use Rattle.std.specs.Prelude.{◌≡◌, IfOk};

use crate::recording::Recording;
use rtr_types::Items;
use std::alloc::{AllocError, Global};
use stride_vector::StrideVector;

impl Recording {
    /// The same recording in memory of its own.
    pub fn copied(&self, alloc: Global) -> Result<Recording, AllocError>
        ensures { IfOk result (λ copy. copy ≡ self.now) }
    {
        let regulated = copies_of(alloc, self.regulated.as_slice())?;
        self.copied_with(alloc, regulated)
    }

    /// The same recording in memory of its own, but with these vectors for its regulated log.
    pub fn copied_with(
        &self,
        alloc: Global,
        regulated: Items<Items<StrideVector>>,
    ) -> Result<Recording, AllocError>
        ensures params { IfOk result (λ copy. copy.params ≡ self.now.params) }
        ensures image { IfOk result (λ copy. copy.image ≡ self.now.image) }
        ensures totals { IfOk result (λ copy. copy.totals ≡ self.now.totals) }
        ensures reduced { IfOk result (λ copy. copy.reduced ≡ self.now.reduced) }
        ensures regulated { IfOk result (λ copy. copy.regulated ≡ regulated) }
    {
        Ok(Recording {
            params: self.params,
            image: copy_of(alloc, self.image.as_slice())?,
            totals: copy_of(alloc, self.totals.as_slice())?,
            reduced: copies_of(alloc, self.reduced.as_slice())?,
            regulated,
        })
    }
}

/// A copy of a list.
fn copy_of<T: Copy>(alloc: Global, list: &[T]) -> Result<Items<T>, AllocError>
    ensures { IfOk result (λ copy. copy ≡ list.now) }
{
    Ok(Items::from_vec(Vec::from_slice(alloc, list)?))
}

/// Copies of lists.
fn copies_of<T: Copy>(alloc: Global, lists: &[Items<T>]) -> Result<Items<Items<T>>, AllocError>
    ensures { IfOk result (λ copies. copies ≡ lists.now) }
{
    let mut copies = Items::new(alloc);
    for list in lists {
        copies.push(copy_of(alloc, list.as_slice())?)?;
    }
    Ok(copies)
}
