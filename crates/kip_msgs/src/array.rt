//! Arrays of messages.

ghost use Rattle.std.specs.Prelude.{◌≡◌, ◌==◌, ◌++◌, ◌∷◌, [], length, is_ok, IfErr, if◌then◌else◌};

use std::alloc::{AllocFailed, Global};
use std::marker::Model;

/// The elements of an array (KIP-482, COMPACT_ARRAY) in order, which contracts see as their list.
#[derive(Debug, Drop)]
pub struct Array<T> {
    elements: Vec<T>,
}

impl<T> Model for Array<T> {
    ghost use Rattle.std.specs.Prelude.{List};

    ghost Value = { List T };

    ghost view = { λ a. a.elements.items };
}

impl<T> Array<T> {
    /// No elements; takes no memory.
    pub fn new(alloc: Global) -> Self
        ensures { result ≡ [] }
    {
        Array {
            elements: Vec::new(alloc),
        }
    }

    /// The elements of a `Vec`, in its order; takes no memory.
    pub fn of_vec(elements: Vec<T>) -> Self
        ensures { result ≡ elements.items }
    {
        Array { elements }
    }

    /// The elements as a `Vec`; takes no memory.
    pub fn into_vec(self) -> Vec<T>
        ensures { result.items ≡ self }
    {
        let Array { elements } = self;
        elements
    }

    /// Adds an element at the end. Where memory is wanting it comes back, and nothing has changed.
    pub fn push(&mut self, element: T) -> Result<(), AllocFailed<T>>
        ensures items { self.new ≡ (if is_ok result then self.old ++ element ∷ [] else self.old) }
        ensures refused { IfErr result (λ e. e.value ≡ element) }
    {
        self.elements.push(element)
    }

    /// The elements, in order.
    pub fn as_slice(&self) -> &[T]
        ensures { result.now ≡ self.now }
    {
        self.elements.as_slice()
    }

    /// How many elements there are.
    pub fn len(&self) -> usize
        ensures { result ≡ length self.now }
    {
        self.elements.len()
    }

    /// Whether there is no element.
    pub fn is_empty(&self) -> bool
        ensures { result ≡ (length self.now == 0) }
    {
        self.elements.is_empty()
    }
}
