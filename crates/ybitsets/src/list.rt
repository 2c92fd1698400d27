//! Lists whose values are those of their elements, so that lists of lists have a value too.

ghost use Rattle.std.specs.Prelude.{◌≡◌, ◌++◌, [], ◌∷◌, OnOk};

use std::alloc::{AllocError, Global};
use std::marker::Model;

/// A list of numbers, items or gotos, whose value in contracts is that of its elements.
#[derive(Drop)]
pub struct Sequence<T: Copy> {
    list: Vec<T>,
}

impl<T: Copy> Model for Sequence<T> {
    ghost use Rattle.std.specs.Prelude.{List};

    ghost Value = { List T };

    ghost view = { λ l. l.list.items };
}

impl<T: Copy> Sequence<T> {
    /// The empty list.
    pub fn new(alloc: Global) -> Sequence<T>
        ensures { result ≡ [] }
    {
        Sequence {
            list: Vec::new(alloc),
        }
    }

    /// The elements.
    pub fn as_slice(&self) -> &[T]
        ensures { result.now ≡ self.now }
    {
        self.list.as_slice()
    }

    /// Adds an element at the end. It fails only when memory runs out.
    pub fn push(&mut self, element: T) -> Result<(), AllocError>
        ensures { OnOk result (self.new ≡ self.old ++ element ∷ []) }
    {
        self.list.push(element)?;
        Ok(())
    }

    /// Takes all elements out; the room for them is kept.
    pub fn clear(&mut self)
        ensures { self.new ≡ [] }
    {
        self.list.clear();
    }
}
