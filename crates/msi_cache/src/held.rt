//! A rider that lies apart from what holds it.

use access_times::Rider;
use std::alloc::{AllocError, Global};
use std::marker::Model;

/// A rider that lies apart from the line or the message that holds it: to hand it over, two of them are swapped,
/// and nothing is copied. Contracts see the rider.
#[derive(Drop)]
pub struct Held<R> {
    apart: Box<R>,
}

impl<R> Model for Held<R> {
    ghost use Rattle.std.specs.Prelude.{◌≡◌};

    ghost Value = { R };

    ghost view = { λ a. a.apart.value };
}

impl<R: Drop> Held<R> {
    ghost use Rattle.std.specs.Prelude.{◌≡◌, IfOk};

    /// Holds this rider.
    pub fn new(alloc: Global, rider: R) -> Result<Held<R>, AllocError>
        ensures { IfOk result (λ held. held ≡ rider) }
    {
        let apart = Box::new(alloc, rider)?;
        Ok(Held { apart })
    }
}

impl<R: Rider> Held<R> {
    ghost use Rattle.std.specs.Prelude.{◌≡◌, IfOk};
    ghost use Rattle.std.specs.Borrow.{sem};
    ghost use Rattle.msi_cache.specs.Held.{LendsHeld};

    /// A place that holds nothing yet.
    pub fn fresh(alloc: Global) -> Result<Held<R>, AllocError>
        ensures { IfOk result (λ held. held ≡ R.riding.fresh) }
    {
        let apart = Box::new(alloc, R::fresh())?;
        Ok(Held { apart })
    }

    /// The rider.
    pub fn get(&self) -> &R
        ensures { result.now ≡ self.now }
    {
        &*self.apart
    }

    /// Lends the rider. What is left behind the loan is held from then on.
    pub fn lend(&mut self) -> &mut R
        ensures* lends { sem 𝓛 (LendsHeld R.row self.entry result) }
        ensures value { result.now ≡ self.old }
    {
        &mut *self.apart
    }

    /// Becomes a rider that holds nothing.
    pub fn forget(&mut self)
        ensures { self.new ≡ R.riding.fresh }
    {
        self.apart.forget();
    }

    /// Takes over what another rider holds.
    pub fn absorb(&mut self, other: &R)
        ensures { self.new ≡ R.riding.absorbed self.old other.now }
    {
        self.apart.absorb(other);
    }

    /// Becomes equal to another rider.
    pub fn copy_from(&mut self, other: &R)
        ensures { self.new ≡ other.now }
    {
        self.apart.copy_from(other);
    }

    /// Becomes the other once that has absorbed what was held.
    pub fn renew(&mut self, other: &R)
        ensures { self.new ≡ R.riding.absorbed other.now self.old }
    {
        self.apart.renew(other);
    }
}
