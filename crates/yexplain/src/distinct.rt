//! Lists without repetitions, in which each entry has a number. `indexmap` has such lists too; a
//! library whose types hold one carries all statements of that crate, as does each above it.

use crate::reads::Made;
use std::alloc::Global;
use std::collections::HashMap;
use std::hash::Hash;

/// Entries in the order in which they came, each once, by numbers from 0 on.
pub struct Distinct<T: Eq + Hash> {
    all: Vec<T>,
    numbers: HashMap<T, usize>,
}

impl<T: Eq + Hash + Drop> Drop for Distinct<T> {
    // A call in each owner, which keeps their proofs short.
    fn drop(self) {
        let Distinct { all: _, numbers: _ } = self;
    }
}

impl<T: Eq + Hash + Copy + Drop> Distinct<T> {
    /// No entries.
    pub fn new(alloc: Global) -> Distinct<T> {
        Distinct {
            all: Vec::new(alloc),
            numbers: HashMap::new(alloc),
        }
    }

    /// All entries, in the order in which they came.
    pub fn all(&self) -> &[T] {
        self.all.as_slice()
    }

    /// How many entries there are.
    pub fn len(&self) -> usize {
        self.all.len()
    }

    /// The entry of a number; none where there is no such entry.
    pub fn at(&self, number: usize) -> Option<T> {
        self.all.get(number).copied()
    }

    /// The number of an entry; none where it isn't there.
    pub fn number(&self, entry: T) -> Option<usize> {
        self.numbers.get(&entry).copied()
    }

    /// Adds an entry, where it isn't there: its number, and whether it is new. Where memory runs
    /// out, it may be among all entries without a number.
    pub fn add(&mut self, entry: T) -> Made<(usize, bool)> {
        if let Some(number) = self.number(entry) {
            return Ok((number, false));
        }
        let number = self.all.len();
        self.all.push(entry)?;
        self.numbers.insert(entry, number)?;
        Ok((number, true))
    }
}
