//! The places that a search came to, each with the one to which it gives.

ghost use Rattle.std.specs.Prelude.{◌≡◌, ◌<◌, ◌∷◌, [], true, length, IfOk, OnOk};
ghost use Rattle.std.specs.List.{Contains};
ghost use Rattle.yprovenance.specs.declared.reason.Cause.TheVariants.{Starts};
ghost use Rattle.yprovenance.specs.Trail.{Puts, entry_at, places_of};

use crate::reason::{Cause, Place};
use std::alloc::{AllocError, Global};
use std::collections::HashMap;
use std::marker::Model;
use ysymbols::let_go;

/// A place, and the entry to which it gives each lookahead of its item.
#[derive(Clone, Copy, Drop)]
pub struct Entry {
    /// The place.
    pub place: Place,
    /// How it gives.
    pub cause: Cause,
    /// The number of the entry to which it gives, a lower one; 0 for the first entry.
    pub gives: usize,
}

/// Entries in the order in which they were found, each place once.
pub struct Trail {
    entries: Vec<Entry>,
    /// The last entry of a key.
    known: HashMap<u64, usize>,
}

impl Drop for Trail {
    fn drop(self) {
        let_go!(self: Trail { entries, known });
    }
}

impl Model for Trail {
    ghost use Rattle.std.specs.Prelude.{List};
    ghost use Rattle.yprovenance.specs.declared.trail.Entry.{Entry};
    ghost use Rattle.yprovenance.specs.Trail.{GivesBack};

    ghost Value = { List Entry };

    ghost view = { λ t. t.entries.items };

    ghost invariant = { λ t. GivesBack t.entries.items };
}

/// A number that tells places of one automaton apart.
fn key_of(place: Place) -> u64 {
    let state = (place.state as u64).wrapping_mul(1 << 32);
    let rule = (place.item.rule as u64).wrapping_mul(1 << 8);
    state.wrapping_add(rule).wrapping_add(place.item.dot as u64)
}

impl Trail {
    /// A trail with one entry. It fails only when memory runs out.
    pub fn new(alloc: Global, place: Place) -> Result<Trail, AllocError>
        ensures { IfOk result (λ t. t
            ≡ record { place = place; cause = Starts; gives = 0 } ∷ []) }
    {
        let mut entries = Vec::new(alloc);
        let cause = Cause::Starts;
        entries.push(Entry {
            place,
            cause,
            gives: 0,
        })?;
        let mut known = HashMap::new(alloc);
        known.insert(key_of(place), 0)?;
        Ok(Trail { entries, known })
    }

    /// How many entries there are.
    pub fn len(&self) -> usize
        ensures { result ≡ length self.now }
    {
        self.entries.len()
    }

    /// The entry of a number below `len()`.
    pub fn at(&self, index: usize) -> Entry
        requires { index < length self.now }
        ensures value { result ≡ entry_at self.now index }
        ensures gives { 0 < index → result.gives < index }
    {
        self.entries[index]
    }

    /// Whether the place is among those of the entries, as far as the last entry of its key tells.
    fn has(&self, place: Place) -> bool
        ensures { result ≡ true → Contains (places_of self.now) place }
    {
        match self.known.get(&key_of(place)).copied() {
            Some(n) => n < self.entries.len() && self.entries[n].place == place,
            None => false,
        }
    }

    /// Adds an entry, unless its place is there. It fails only when memory runs out.
    pub fn put(&mut self, entry: Entry) -> Result<(), AllocError>
        requires { entry.gives < length self.old }
        ensures { OnOk result (Puts self.old entry self.new) }
    {
        if self.has(entry.place) {
            return Ok(());
        }
        self.known.insert(key_of(entry.place), self.entries.len())?;
        self.entries.push(entry)?;
        Ok(())
    }
}
