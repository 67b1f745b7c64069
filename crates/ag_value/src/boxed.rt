//! A box in memory; contracts see the value in it.
ghost use Rattle.std.specs.Prelude.{◌≡◌, IfOk};

use crate::fault::NoMemory;
use std::alloc::Global;
use std::marker::Model;

/// A `Box`; contracts see only the value in it, and not its address.
#[derive(Debug, Drop)]
pub struct Boxed<T> {
    inner: Box<T>,
}

impl<T> Model for Boxed<T> {
    ghost Value = { T };

    // for the prover alone: a fact about the type that contracts see, from the same fact about T
    ghost coded = { T.code };

    ghost view = { λ b. b.inner.value };
}

impl<T> Boxed<T> {
    /// Lends the value.
    pub fn get(&self) -> &T
        ensures { result.now ≡ self.now }
    {
        &self.inner
    }
}

impl<T: Drop> Boxed<T> {
    /// Puts the value into a new box. Takes memory. Fails with NoMemory.
    pub fn new(alloc: Global, value: T) -> Result<Boxed<T>, NoMemory>
        ensures { IfOk result (λ b. b ≡ value) }
    {
        let inner = Box::new(alloc, value)?;
        Ok(Boxed { inner })
    }
}
