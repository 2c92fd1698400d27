//! A list of marks by number.

ghost use Rattle.std.specs.Prelude.{◌≡◌, ◌+◌, ◌<◌, true, false, length, replicate, slice_set};
ghost use Rattle.std.specs.Prelude.{slice_index_or, IfOk, if◌then◌else◌};
ghost use Rattle.ybitsets.specs.Marks.{gaps};

use std::alloc::{AllocError, Global};
use std::marker::Model;

/// Marks of the numbers below a bound.
#[derive(Drop)]
pub struct Marks {
    places: Vec<bool>,
}

impl Model for Marks {
    ghost use Rattle.std.specs.Prelude.{List, Bool};

    ghost Value = { List Bool };

    ghost view = { λ m. m.places.items };
}

impl Marks {
    /// `n` places, none marked. It fails only when memory runs out.
    pub fn new(alloc: Global, n: usize) -> Result<Marks, AllocError>
        ensures { IfOk result (λ m. m ≡ replicate n false) }
    {
        let places = vec![in alloc; false; n]?;
        Ok(Marks { places })
    }

    /// The marks that a list of them says.
    pub fn of(places: Vec<bool>) -> Marks
        ensures { result ≡ places.items }
    {
        Marks { places }
    }

    /// Whether place `i` is marked.
    pub fn has(&self, i: usize) -> bool
        requires { i < length self.now }
        ensures { result ≡ slice_index_or self.now i false }
    {
        self.places[i]
    }

    /// Marks place `i`, and says whether it was unmarked.
    pub fn mark(&mut self, i: usize) -> bool
        requires { i < length self.old }
        ensures set { self.new ≡ slice_set self.old i true }
        ensures fewer { gaps self.new + (if result then 1 else 0) ≡ gaps self.old }
        ensures unchanged { result ≡ false → self.new ≡ self.old }
    {
        let before = self.places[i];
        self.places[i] = true;
        !before
    }

    /// Unmarks place `i`.
    pub fn unmark(&mut self, i: usize)
        requires { i < length self.old }
        ensures { self.new ≡ slice_set self.old i false }
    {
        self.places[i] = false;
    }
}
