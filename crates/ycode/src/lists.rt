//! Lists of numbers, each once, numbered in the order in which they first come.

ghost use Rattle.std.specs.Prelude.{◌≡◌, ◌++◌, ◌∷◌, [], false, OnOk, OnErr};
ghost use Rattle.ysymbols.specs.Names.{find_in, is_among};

use std::alloc::{AllocError, Global};
use std::collections::HashMap;
use std::marker::Model;

/// Different lists of numbers. The number of each is its place, counted from 0.
pub struct Lists {
    lists: Vec<Vec<usize>>,
    numbers: HashMap<Vec<usize>, usize>,
}

impl Drop for Lists {
    fn drop(self) {
        let Lists { lists, numbers } = self;
        drop(lists);
        drop(numbers);
    }
}

impl Model for Lists {
    ghost use Rattle.std.specs.Prelude.{List, ℕ};
    ghost use Rattle.ysymbols.specs.NameTexts.{texts_of, IsNumbered};

    ghost Value = { List (List ℕ) };

    ghost view = { λ t. texts_of t.lists.items };

    ghost invariant = { λ t. IsNumbered (texts_of t.lists.items) t.numbers };
}

impl Lists {
    /// No lists.
    pub fn new(alloc: Global) -> Lists
        ensures { result ≡ [] }
    {
        Lists {
            lists: Vec::new(alloc),
            numbers: HashMap::new(alloc),
        }
    }

    /// The number of this list, or `None` where it is not there.
    pub fn find(&self, list: &[usize]) -> Option<usize>
        ensures { result ≡ find_in self.now list.now }
    {
        self.numbers.get(list).copied()
    }

    /// Adds a list that is not there after the others. It fails only when memory runs out, and
    /// then adds nothing.
    pub fn push(&mut self, alloc: Global, list: &[usize]) -> Result<(), AllocError>
        requires { is_among self.old list.now ≡ false }
        ensures added { OnOk result (self.new ≡ self.old ++ list.now ∷ []) }
        ensures kept { OnErr result (self.new ≡ self.old) }
    {
        let number = self.lists.len();
        let key = Vec::from_slice(alloc, list)?;
        self.lists.push(Vec::from_slice(alloc, list)?)?;
        match self.numbers.insert(key, number) {
            Ok(_) => Ok(()),
            Err(_) => {
                self.lists.pop();
                Err(AllocError)
            }
        }
    }
}
