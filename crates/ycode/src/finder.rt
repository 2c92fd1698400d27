//! Where a row can begin: what is known of the places, so that few are looked at one by one.

ghost use Rattle.std.specs.Prelude.{ℕ, ◌≡◌, ◌<◌, ◌≤◌, ◌+◌, ◌^◌, true, false, length, All, OnOk};
ghost use Rattle.std.specs.Prelude.{slice_index};
ghost use Rattle.ycode.specs.Packing.{Begins, can_begin, first_place, is_taken};
ghost use Rattle.ycode.specs.Finder.{KnowsOf, KnowsNothing};

use crate::lists::Lists;
use crate::packing::Packing;
use crate::slots::{blocked, mark, mark_all};
use std::alloc::{AllocError, Global};

/// What is known of the places where rows can't begin.
#[derive(Drop)]
pub struct Finder {
    /// Cells that are taken.
    cells: Vec<u64>,
    /// Places where rows begin.
    starts: Vec<u64>,
    /// The cells before this one are taken.
    full: usize,
    /// The columns of rows, each list once.
    shapes: Lists,
    /// Where the last row with these columns begins: it fits nowhere before.
    lasts: Vec<usize>,
}

impl Finder {
    /// Nothing is known.
    pub fn new(alloc: Global) -> Finder
        ensures { KnowsNothing result }
    {
        Finder {
            cells: Vec::new(alloc),
            starts: Vec::new(alloc),
            full: 0,
            shapes: Lists::new(alloc),
            lasts: Vec::new(alloc),
        }
    }

    /// Where the last row with these columns begins, or 0.
    fn last(&self, packing: &Packing, columns: &[usize]) -> usize
        requires { KnowsOf packing.now self.now }
        ensures { (d : ℕ) → d < result → can_begin packing.now columns.now d ≡ false }
    {
        match self.shapes.find(columns) {
            Some(k) => self.lasts[k],
            None => 0,
        }
    }

    /// A place before which a row of these columns can't begin.
    fn start(&self, packing: &Packing, columns: &[usize]) -> usize
        requires { KnowsOf packing.now self.now }
        ensures { (d : ℕ) → d < result → can_begin packing.now columns.now d ≡ false }
    {
        if columns.is_empty() {
            return 0;
        }
        self.last(packing, columns)
            .max(self.full.saturating_sub(columns[0]))
    }

    /// How many places from `d` on are known where a row of these columns can't begin, up to 64.
    fn passed(&self, packing: &Packing, columns: &[usize], d: usize) -> usize
        requires knows { KnowsOf packing.now self.now }
        requires near { d < 2 ^ 63 }
        requires columns { All (λ t. t < 2 ^ 63) columns.now }
        ensures none { (i : ℕ) → i < result → can_begin packing.now columns.now (d + i) ≡ false }
        ensures most { result ≤ 64 }
    {
        let met = blocked(&self.cells, columns, d) | blocked(&self.starts, &[0], d);
        met.trailing_ones() as usize
    }

    /// The first place at which a row of these columns can begin.
    pub fn place_for(&self, packing: &Packing, columns: &[usize]) -> usize
        requires knows { KnowsOf packing.now self.now }
        requires columns { All (λ t. t < 2 ^ 63) columns.now }
        ensures first { result ≡ first_place packing.now columns.now }
        ensures free { can_begin packing.now columns.now result ≡ true }
        ensures none { (d : ℕ) → d < result → can_begin packing.now columns.now d ≡ false }
        ensures near { result ≤ length packing.now.checks }
        ensures few { result < 2 ^ 63 }
    {
        let end = packing.len();
        let mut d = self.start(packing, columns);
        while d < end {
            let at = d + self.passed(packing, columns, d);
            if at >= end {
                return end;
            }
            if packing.can_begin(columns, at) {
                return at;
            }
            d = at + 1;
        }
        end
    }

    /// Moves on to the first cell that isn't taken.
    fn pass_full(&mut self, packing: &Packing)
        requires { KnowsOf packing.now self.old }
        ensures { KnowsOf packing.now self.new }
    {
        while packing.is_taken(self.full) {
            self.full += 1;
        }
    }

    /// Keeps where a row of these columns begins, which fits nowhere before.
    fn keep(
        &mut self,
        alloc: Global,
        packing: &Packing,
        columns: &[usize],
        d: usize,
    ) -> Result<(), AllocError>
        requires knows { KnowsOf packing.now self.old }
        requires none { (e : ℕ) → e < d → can_begin packing.now columns.now e ≡ false }
        ensures { OnOk result (KnowsOf packing.now self.new) }
    {
        if let Some(k) = self.shapes.find(columns) {
            self.lasts[k] = d;
            return Ok(());
        }
        self.shapes.push(alloc, columns)?;
        self.lasts.push(d)?;
        Ok(())
    }

    /// Learns of a row of these columns that begins at a place, and fits nowhere before. It fails
    /// only when memory runs out; what is known then is not said.
    pub fn learn(
        &mut self,
        alloc: Global,
        packing: &Packing,
        columns: &[usize],
        d: usize,
    ) -> Result<(), AllocError>
        requires knows { KnowsOf packing.now self.old }
        requires near { d < 2 ^ 63 }
        requires columns { All (λ t. t < 2 ^ 63) columns.now }
        requires begun { Begins packing.now.begun d }
        requires cells { (k : ℕ) → k < length columns.now
            → is_taken packing.now (d + slice_index columns.now k) ≡ true }
        requires none { (e : ℕ) → e < d → can_begin packing.now columns.now e ≡ false }
        ensures { OnOk result (KnowsOf packing.now self.new) }
    {
        mark_all(&mut self.cells, columns, d)?;
        mark(&mut self.starts, d)?;
        self.pass_full(packing);
        self.keep(alloc, packing, columns, d)?;
        Ok(())
    }
}
