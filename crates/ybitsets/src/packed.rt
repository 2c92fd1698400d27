//! Packed rows: all rows over one list of cells, where each filled cell has its row as owner.

ghost use Rattle.std.specs.Prelude.{ℕ, ◌≡◌, ◌+◌, ◌<◌, ◌≤◌, ◌↔◌, ◌^◌, [], length, slice_index};
ghost use Rattle.std.specs.Prelude.{slice_index_or, vec_len, true, false, All, IfOk, OnOk};
ghost use Rattle.ysymbols.specs.Grammar.{most_symbols};
ghost use Rattle.ybitsets.specs.Packed.{AreOwners, FitsAt, IsPushed, entry_of, held_at};
ghost use Rattle.ybitsets.specs.Packed.{SameCells, IsWritten};

use crate::slots::{Slots, blocked};
use std::alloc::{AllocError, Global};
use std::marker::Model;
use ysymbols::let_go;

/// Rows over one list of cells.
pub struct Packed<T: Copy> {
    cells: Vec<Option<T>>,
    /// For each cell the number of its row, counted from 1, or 0 where it is free.
    owners: Vec<usize>,
    /// Where the columns of each row begin.
    displacements: Vec<usize>,
    /// How many columns a row has.
    width: usize,
    /// Which slots are taken.
    slots: Slots,
}

impl<T: Copy> Drop for Packed<T> {
    fn drop(self) {
        let_go!(self: Packed { cells, owners, displacements, width, slots });
    }
}

impl<T: Copy> Model for Packed<T> {
    ghost use Rattle.ybitsets.specs.Packed.{PackedRows, IsPacked, unpack};

    ghost Value = { PackedRows T };

    ghost view = { λ p. record {
      width = p.width;
      rows = unpack p.cells.items p.owners.items p.displacements.items p.width;
    } };

    ghost invariant = { λ p. IsPacked p.cells.items p.owners.items p.displacements.items p.width };
}

/// Whether no filled place of the row meets a cell that has an owner.
fn fits<T: Copy>(owners: &[usize], row: &[Option<T>], d: usize) -> bool
    requires { d ≤ length owners.now }
    ensures fits { result ≡ true → FitsAt owners.now row.now d }
    ensures within { result ≡ false → d < length owners.now }
{
    for t in 0..row.len() {
        if row[t].is_some() && d + t < owners.len() && owners[d + t] != 0 {
            return false;
        }
    }
    true
}

/// The columns of a row that have an entry.
fn columns_of<T: Copy>(alloc: Global, row: &[Option<T>]) -> Result<Vec<usize>, AllocError>
    ensures { IfOk result (λ v. All (λ t. t < length row.now) v.items) }
{
    let mut columns = Vec::new(alloc);
    for t in 0..row.len() {
        if row[t].is_some() {
            columns.push(t)?;
        }
    }
    Ok(columns)
}

/// The least displacement at which the row meets no other, from where the search may start on; 64
/// are tried at a time.
fn displacement_for<T: Copy>(
    slots: &Slots,
    owners: &[usize],
    row: &[Option<T>],
    columns: &[usize],
) -> usize
    requires { All (λ t. t < 2 ^ 63) columns.now }
    ensures fits { FitsAt owners.now row.now result }
    ensures near { result ≤ length owners.now }
{
    let mut d = slots.start(columns);
    while d < owners.len() {
        let met = blocked(slots.words(), columns, d);
        let found = d + met.trailing_ones() as usize;
        if met != u64::MAX && found <= owners.len() && fits(owners, row, found) {
            return found;
        }
        d += 64;
    }
    owners.len()
}

/// Makes room for all cells below `end`.
fn grow<T: Copy>(
    cells: &mut Vec<Option<T>>,
    owners: &mut Vec<usize>,
    end: usize,
) -> Result<(), AllocError>
    requires { vec_len owners.old ≤ vec_len cells.old }
    ensures same { SameCells cells.old.items cells.new.items owners.old.items owners.new.items }
    ensures end { OnOk result (end ≤ vec_len owners.new) }
{
    while owners.len() < end {
        cells.push(None)?;
        owners.push(0)?;
    }
    Ok(())
}

/// Writes the row of this number at a displacement where it fits.
fn write<T: Copy>(
    cells: &mut [Option<T>],
    owners: &mut [usize],
    n: usize,
    d: usize,
    row: &[Option<T>],
)
    requires room { length owners.old ≤ length cells.old }
    requires end { d + length row.now ≤ length owners.old }
    requires rows { AreOwners owners.old n }
    requires small { n < 2 ^ 63 }
    requires fits { FitsAt owners.old row.now d }
    ensures { IsWritten (length row.now) cells.old cells.new owners.old owners.new n d row.now }
{
    for t in 0..row.len() {
        if row[t].is_some() {
            cells[d + t] = row[t];
            owners[d + t] = n + 1;
        }
    }
}

/// The cell at place `k`, where its owner is row `q`.
fn held<T: Copy>(cells: &[Option<T>], owners: &[usize], q: usize, k: usize) -> Option<T>
    requires room { length owners.now ≤ length cells.now }
    requires small { q < 2 ^ 63 }
    ensures { result ≡ held_at cells.now owners.now q k }
{
    if k < owners.len() && owners[k] == q + 1 {
        cells[k]
    } else {
        None
    }
}

impl<T: Copy> Packed<T> {
    /// No rows, of `width` columns each.
    pub fn new(alloc: Global, width: usize) -> Packed<T>
        requires { width ≤ most_symbols }
        ensures { result ≡ record { width = width; rows = [] } }
    {
        Packed {
            cells: Vec::new(alloc),
            owners: Vec::new(alloc),
            displacements: Vec::new(alloc),
            width,
            slots: Slots::new(alloc),
        }
    }

    /// How many columns a row has.
    pub fn width(&self) -> usize
        ensures { result ≡ self.now.width }
    {
        self.width
    }

    /// Where the columns of each row begin. No contract says which displacement a row gets.
    pub fn displacements(&self) -> &[usize]
        ensures { length result.now ≡ length self.now.rows }
    {
        self.displacements.as_slice()
    }

    /// The entry of row `q` at column `t`, or `None` where it has none.
    pub fn get(&self, q: usize, t: usize) -> Option<T>
        requires { q < length self.now.rows }
        ensures { result ≡ entry_of self.now.rows q t }
    {
        if self.width <= t {
            return None;
        }
        held(&self.cells, &self.owners, q, self.displacements[q] + t)
    }

    /// Adds a row at the least displacement at which it fits. It fails only when memory runs out;
    /// what is in the rows then is not said.
    pub fn push(&mut self, alloc: Global, row: &[Option<T>]) -> Result<(), AllocError>
        requires { length row.now ≡ self.old.width }
        ensures { OnOk result (IsPushed self.old self.new row.now) }
    {
        let n = self.displacements.len();
        let columns = columns_of(alloc, row)?;
        let d = displacement_for(&self.slots, &self.owners, row, &columns);
        grow(&mut self.cells, &mut self.owners, d + row.len())?;
        self.slots.take(&columns, d)?;
        self.displacements.push(d)?;
        write(&mut self.cells, &mut self.owners, n, d, row);
        Ok(())
    }
}
