ghost use Rattle.std.specs.Prelude.{◌≡◌, ◌↔◌, ◌<◌, [], ◌∷◌, ◌++◌, length, slice_get, slice_set, IsTrue, IfOk, OnOk, OnErr};
ghost use Rattle.std.specs.Slice.Iter.{iter_rest};

use crate::memory::OutOfMemory;
use std::alloc::Global;
use std::marker::Model;
use std::{mem, slice};

/// A `Vec` that contracts see as the list of its elements, so that a struct or an enum with such a field can be
/// compared with the value of a definition. It is made from a `Vec`, and gives it back, without taking memory.
#[derive(Debug, Drop)]
pub struct Listed<T> {
    elements: Vec<T>,
}

impl<T> Model for Listed<T> {
    ghost use Rattle.std.specs.Prelude.{List};
    ghost use Rattle.std.specs.Coded.{coded_list};

    ghost Value = { List T };

    ghost coded = { coded_list T.code };

    ghost view = { λ it. it.elements.items };
}

impl<T> Listed<T> {
    /// No elements. Takes no memory.
    pub fn new(alloc: Global) -> Listed<T>
        ensures { result ≡ [] }
    {
        Listed {
            elements: Vec::new(alloc),
        }
    }

    /// The elements of this vector, whose memory is kept.
    pub fn from_vec(elements: Vec<T>) -> Listed<T>
        ensures { result ≡ elements.items }
    {
        Listed { elements }
    }

    /// The vector that holds the elements. Takes no memory.
    pub fn into_vec(self) -> Vec<T>
        ensures { result.items ≡ self }
    {
        let Listed { elements } = self;
        elements
    }

    /// The elements, lent.
    pub fn as_slice(&self) -> &[T]
        ensures { result.now ≡ self.now }
    {
        self.elements.as_slice()
    }

    /// The elements, lent one after the other.
    pub fn iter(&self) -> slice::Iter<'_, T>
        ensures { iter_rest result ≡ self.now }
    {
        self.elements.iter()
    }

    /// How many elements there are.
    pub fn len(&self) -> usize
        ensures { result ≡ length self.now }
    {
        self.elements.len()
    }

    /// Whether there is no element.
    pub fn is_empty(&self) -> bool
        ensures { IsTrue result ↔ (self.now ≡ []) }
    {
        self.elements.is_empty()
    }

    /// Puts an element at place `at`, and gives back the one that was there. Takes no memory.
    pub fn replace(&mut self, at: usize, element: T) -> T
        requires { at < length self.old }
        ensures was { slice_get self.old at ≡ Some result }
        ensures now { self.new ≡ slice_set self.old at element }
    {
        mem::replace(&mut self.elements[at], element)
    }
}

impl<T: Drop> Listed<T> {
    /// Appends an element.
    ///
    /// # Errors
    /// Want of memory leaves the list as it was.
    pub fn push(&mut self, element: T) -> Result<(), OutOfMemory>
        ensures ok { OnOk result (self.new ≡ self.old ++ element ∷ []) }
        ensures err { OnErr result (self.new ≡ self.old) }
    {
        self.elements.push(element)?;
        Ok(())
    }
}

impl<T: Copy> Listed<T> {
    /// A copy of these elements.
    ///
    /// # Errors
    /// Want of memory.
    pub fn from_slice(alloc: Global, elements: &[T]) -> Result<Listed<T>, OutOfMemory>
        ensures { IfOk result (λ list. list ≡ elements.now) }
    {
        let elements = Vec::from_slice(alloc, elements)?;
        Ok(Listed { elements })
    }
}

impl<T> From<Vec<T>> for Listed<T> {
    ghost from_gives = { λ elements list. list ≡ elements.items };

    /// The elements of this vector, whose memory is kept.
    fn from(elements: Vec<T>) -> Listed<T> {
        Listed::from_vec(elements)
    }
}
