//! Lists that contracts see as their elements.

ghost use Rattle.std.specs.Prelude.{◌≡◌, [], ◌∷◌, ◌++◌, ◌<◌, length, slice_set, IsTrue, ◌↔◌, OnOk, OnErr};

use std::alloc::{AllocError, Global};
use std::marker::Model;
use std::ops::DerefSlice;

/// A growing list that contracts see as its elements in order, and never as pointers and capacities.
pub struct List<T> {
    elements: Vec<T>,
}

impl<T: Drop> Drop for List<T> {
    fn drop(self) {
        let List { elements: _ } = self;
    }
}

impl<T> Model for List<T> {
    ghost use Rattle.std.specs.Prelude.{List as Elements};
    ghost use Rattle.std.specs.Coded.{coded_list};

    ghost Value = { Elements T };

    ghost coded = { coded_list T.code };

    ghost view = { λ list. list.elements.items };
}

impl<T> List<T> {
    /// The empty list, which takes no memory until the first push.
    pub fn new(alloc: Global) -> List<T>
        ensures { result ≡ [] }
    {
        List {
            elements: Vec::new(alloc),
        }
    }

    pub fn from_vec(elements: Vec<T>) -> List<T>
        ensures { result ≡ elements.items }
    {
        List { elements }
    }

    pub fn into_vec(self) -> Vec<T>
        ensures { result.items ≡ self }
    {
        let List { elements } = self;
        elements
    }

    pub fn as_slice(&self) -> &[T]
        ensures { result.now ≡ self.now }
    {
        self.elements.as_slice()
    }

    pub fn len(&self) -> usize
        ensures { result ≡ length self.now }
    {
        self.elements.len()
    }

    pub fn is_empty(&self) -> bool
        ensures { IsTrue result ↔ (self.now ≡ []) }
    {
        self.elements.is_empty()
    }
}

impl<T> List<T> {
    ghost use Rattle.std.specs.Prelude.{◌≡◌, ◌<◌, length, slice_index_or, slice_set};
    ghost use Rattle.std.specs.Borrow.{Lends, sem};
    ghost use Rattle.bl_tree.specs.contracts.list.List.{the_row};

    /// The element at a position, to be changed where it lies.
    pub fn get_mut(&mut self, at: usize) -> &mut T
        requires { at < length self.old }
        ensures* writes_back { sem 𝓛 (Lends (the_row T.row) T.row self.entry result (λ element. slice_set self.old at element)) }
        ensures value { result.now ≡ slice_index_or self.old at result.now }
    {
        &mut self.elements[at]
    }
}

impl<T: Drop> List<T> {
    /// After want of memory the list is as before, and the element is dropped.
    pub fn push(&mut self, element: T) -> Result<(), AllocError>
        ensures ok { OnOk result (self.new ≡ self.old ++ element ∷ []) }
        ensures err { OnErr result (self.new ≡ self.old) }
    {
        self.elements.push(element)?;
        Ok(())
    }

    pub fn set(&mut self, at: usize, element: T)
        requires { at < length self.old }
        ensures { self.new ≡ slice_set self.old at element }
    {
        self.elements[at] = element;
    }
}

impl<T> DerefSlice for List<T> {
    type Elem = T;

    ghost deref_gives = { λ list elements. elements ≡ list };

    fn deref(&self) -> &[T] {
        self.elements.as_slice()
    }
}
