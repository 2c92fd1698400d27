//! Rows in one list of cells, each row once.

ghost use Rattle.std.specs.Prelude.{◌≡◌, ◌<◌, ◌≤◌, false, length, IfOk, OnOk};
ghost use Rattle.ysymbols.specs.Names.{is_among};
ghost use Rattle.ycode.specs.Combs.{AreAtMost};
ghost use Rattle.ycode.specs.Layout.{IsLaid, key_of, row_of, layout_of, no_rows, and_row, place_in};
ghost use Rattle.ycode.specs.Layout.{with_entries};
ghost use Rattle.ycode.specs.Packing.{IsEntered, columns_in, first_place};

use crate::entry::{Entry, spread};
use crate::finder::Finder;
use crate::lists::Lists;
use crate::packing::{Packing, columns_of};
use std::alloc::{AllocError, Global};

/// Rows in one list of cells, each row once, at the first place where it fits.
#[derive(Drop)]
pub struct Layout {
    packing: Packing,
    finder: Finder,
    /// The entries of each row, as one list of numbers.
    known: Lists,
    /// Where each of these rows begins.
    places: Vec<usize>,
}

/// Entries as one list of numbers: each column, and the number there.
fn key_of(alloc: Global, entries: &[Entry]) -> Result<Vec<usize>, AllocError>
    ensures { IfOk result (λ v. v.items ≡ key_of entries.now) }
{
    let mut key = Vec::new(alloc);
    for entry in entries {
        key.push(entry.column)?;
        key.push(entry.number)?;
    }
    Ok(key)
}

impl Layout {
    /// No rows, of `width` columns each.
    pub fn new(alloc: Global, width: usize) -> Layout
        requires { 0 < width }
        ensures value { layout_of result ≡ no_rows width }
        ensures laid { IsLaid result }
    {
        Layout {
            packing: Packing::new(alloc, width),
            finder: Finder::new(alloc),
            known: Lists::new(alloc),
            places: Vec::new(alloc),
        }
    }

    /// Adds a row that isn't there, at the first place where it fits. It fails only when memory
    /// runs out; what the rows are then is not said.
    fn add(&mut self, alloc: Global, key: &[usize], entries: &[Entry]) -> Result<usize, AllocError>
        requires laid { IsLaid self.old }
        requires key { key.now ≡ key_of entries.now }
        requires fresh { is_among self.old.known key.now ≡ false }
        ensures laid { OnOk result (IsLaid self.new) }
        ensures entered { IfOk result (IsEntered self.old.packing self.new.packing entries.now) }
        ensures exact { IfOk result (λ d. layout_of self.new
            ≡ and_row (layout_of self.old) entries.now d) }
        ensures first { IfOk result (λ d. d ≡ first_place self.old.packing
            (columns_in (row_of self.old.packing.width entries.now))) }
    {
        let row = spread(alloc, entries, self.packing.width())?;
        let columns = columns_of(alloc, &row)?;
        let d = self.finder.place_for(&self.packing, &columns);
        self.packing.put(&row, d)?;
        self.finder.learn(alloc, &self.packing, &columns, d)?;
        self.known.push(alloc, key)?;
        self.places.push(d)?;
        Ok(d)
    }

    /// Where the row of these entries begins, now that it is among the rows: equal rows begin at
    /// one place. It fails only when memory runs out; what the rows are then is not said.
    pub fn put(&mut self, alloc: Global, entries: &[Entry]) -> Result<usize, AllocError>
        requires { IsLaid self.old }
        ensures laid { OnOk result (IsLaid self.new) }
        ensures entered { IfOk result (IsEntered self.old.packing self.new.packing entries.now) }
        ensures exact { OnOk result (layout_of self.new
            ≡ with_entries (layout_of self.old) entries.now) }
        ensures place { IfOk result (λ d. d ≡ place_in (layout_of self.new) entries.now) }
    {
        let key = key_of(alloc, entries)?;
        if let Some(k) = self.known.find(&key) {
            return Ok(self.places[k]);
        }
        let d = self.add(alloc, &key, entries)?;
        Ok(d)
    }

    /// The cells: their checks, and their numbers.
    pub fn into_cells(self) -> (Vec<usize>, Vec<usize>)
        ensures checks { result.0.items ≡ self.packing.checks }
        ensures values { result.1.items ≡ self.packing.values }
        ensures beside { length self.packing.checks ≤ length self.packing.values }
        ensures small { AreAtMost self.packing.width self.packing.checks }
    {
        let Layout {
            packing,
            finder,
            known,
            places,
        } = self;
        drop(finder);
        drop(known);
        drop(places);
        packing.into_cells()
    }
}
