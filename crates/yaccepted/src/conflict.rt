//! A conflict as a list has it: texts, in which no number of a state or a rule stands.

use std::alloc::Global;
use yexplain::lines::Spot;
use yexplain::reads::Made;
use yfiles::category::Category;
use ysymbols::let_go;
use ysymbols::names::{SymbolTable, intern, is_among, number_in};

/// A conflict between two items on a token.
pub struct Conflict {
    /// The place in a file that it comes from: a line of a list, or a rule of the grammar.
    pub spot: Spot,
    /// The token's name.
    pub token: Vec<u8>,
    /// The item whose shift or reduction is taken.
    pub taken: Vec<u8>,
    /// The item that isn't.
    pub other: Vec<u8>,
    /// Its category, where it is one of the grammar.
    pub category: Option<Category>,
}

impl Drop for Conflict {
    // A call in each owner, which keeps their proofs short.
    fn drop(self) {
        let_go!(self: Conflict { spot, token, taken, other, category });
    }
}

impl Conflict {
    /// The same again.
    pub fn copy(&self, alloc: Global) -> Made<Conflict> {
        Ok(Conflict {
            spot: self.spot,
            token: Vec::from_slice(alloc, &self.token)?,
            taken: Vec::from_slice(alloc, &self.taken)?,
            other: Vec::from_slice(alloc, &self.other)?,
            category: self.category,
        })
    }

    /// What a conflict is compared by with others of its token that are settled by the same item.
    pub fn front(&self, alloc: Global) -> Made<Vec<u8>> {
        let mut key = Vec::from_slice(alloc, &self.token)?;
        key.push(b'\n')?;
        key.extend_from_slice(&self.taken)?;
        Ok(key)
    }

    /// What a conflict is compared by.
    pub fn key(&self, alloc: Global) -> Made<Vec<u8>> {
        let mut key = self.front(alloc)?;
        key.push(b'\n')?;
        key.extend_from_slice(&self.other)?;
        Ok(key)
    }
}

/// Conflicts, each once.
pub struct Conflicts {
    /// In their order.
    pub all: Vec<Conflict>,
    /// What they are compared by.
    keys: SymbolTable,
}

impl Drop for Conflicts {
    // A call in each owner, which keeps their proofs short.
    fn drop(self) {
        let_go!(self: Conflicts { all, keys });
    }
}

impl Conflicts {
    /// None so far.
    pub fn new(alloc: Global) -> Conflicts {
        Conflicts {
            all: Vec::new(alloc),
            keys: SymbolTable::new(alloc),
        }
    }

    /// Whether a conflict is among them.
    pub fn has(&self, alloc: Global, conflict: &Conflict) -> Made<bool> {
        let key = conflict.key(alloc)?;
        Ok(is_among(&self.keys, &key))
    }

    /// The line of a conflict, where it is among them.
    pub fn line_of(&self, alloc: Global, conflict: &Conflict) -> Made<Option<usize>> {
        let key = conflict.key(alloc)?;
        let before = self.all.get(number_in(&self.keys, &key));
        Ok(before.map(|before| before.spot.line))
    }

    /// Adds a conflict, unless it is among them, and says whether it was added.
    pub fn add(&mut self, alloc: Global, conflict: Conflict) -> Made<bool> {
        let key = conflict.key(alloc)?;
        if is_among(&self.keys, &key) {
            return Ok(false);
        }
        intern(alloc, &mut self.keys, &key)?;
        self.all.push(conflict)?;
        Ok(true)
    }
}
