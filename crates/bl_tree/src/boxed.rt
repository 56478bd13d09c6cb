//! Owned values that contracts see as the values themselves.

ghost use Rattle.std.specs.Prelude.{◌≡◌, IfOk};

use std::alloc::{AllocError, Global};
use std::marker::Model;
use std::ops::{Deref, DerefMut};

/// An owned value that contracts see as the value itself.
pub struct Box<T> {
    inner: std::boxed::Box<T>,
}

impl<T: Drop> Drop for Box<T> {
    fn drop(self) {
        let Box { inner: _ } = self;
    }
}

impl<T> Model for Box<T> {
    ghost Value = { T };

    ghost coded = { T.code };

    ghost view = { λ owner. owner.inner.value };
}

impl<T> Box<T> {
    pub fn into_inner(self) -> T
        ensures { result ≡ self }
    {
        let Box { inner } = self;
        std::boxed::Box::into_inner(inner)
    }
}

impl<T: Drop> Box<T> {
    /// Fails only for want of memory, and the value is dropped then.
    pub fn new(alloc: Global, value: T) -> Result<Box<T>, AllocError>
        ensures { IfOk result (λ owner. owner ≡ value) }
    {
        Ok(Box {
            inner: std::boxed::Box::new(alloc, value)?,
        })
    }
}

impl<T> Deref for Box<T> {
    type Target = T;

    ghost deref_gives = { λ owner value. value ≡ owner };

    fn deref(&self) -> &T {
        &self.inner
    }
}

impl<T> DerefMut for Box<T> {
    ghost use Rattle.std.specs.Borrow.{Lends, sem};
    ghost use Rattle.bl_tree.specs.contracts.boxed.Box.{the_row};

    ghost deref_mut_gives = { λ owner value. value ≡ owner };

    fn deref_mut(&mut self) -> &mut T
        ensures* writes_back { sem 𝓛 (Lends (the_row T.row) T.row self.entry result (λ v. v)) }
        ensures value { result.now ≡ self.old }
    {
        &mut self.inner
    }
}
