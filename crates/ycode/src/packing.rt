//! Rows that are put into one list of cells.

ghost use Rattle.std.specs.Prelude.{◌≡◌, ◌+◌, ◌<◌, ◌≤◌, ◌^◌, [], true, false, length, max, All};
ghost use Rattle.std.specs.Prelude.{IfOk, OnOk, vec_len, slice_index_or};
ghost use Rattle.std.specs.List.{list_any};
ghost use Rattle.ycode.specs.Combs.{AreAtMost};
ghost use Rattle.ycode.specs.Packing.{IsPacking, IsPut, IsGrown, IsWritten, IsEven, is_taken};
ghost use Rattle.ycode.specs.Packing.{can_begin, columns_in, with_row};

use std::alloc::{AllocError, Global};
use std::marker::Model;

/// Rows in one list of cells. A cell has a number, and as its check the column that it is of; a
/// free cell has the number of columns as its check. Different rows begin at different places.
#[derive(Drop)]
pub struct Packing {
    /// How many columns a row has.
    width: usize,
    checks: Vec<usize>,
    values: Vec<usize>,
    /// Whether a row begins at a place.
    begun: Vec<bool>,
}

impl Model for Packing {
    ghost use Rattle.ycode.specs.Packing.{PackingValue, IsPacking};

    ghost Value = { PackingValue };

    ghost view = { λ p. record {
      width = p.width;
      checks = p.checks.items;
      values = p.values.items;
      begun = p.begun.items;
    } };

    ghost invariant = { λ p. IsPacking p.width p.checks.items p.values.items p.begun.items };
}

/// The columns of a row that have a number.
pub fn columns_of(alloc: Global, row: &[Option<usize>]) -> Result<Vec<usize>, AllocError>
    ensures below { IfOk result (λ v. All (λ t. t < length row.now) v.items) }
    ensures value { IfOk result (λ v. v.items ≡ columns_in row.now) }
{
    let mut columns = Vec::new(alloc);
    for t in 0..row.len() {
        if row[t].is_some() {
            columns.push(t)?;
        }
    }
    Ok(columns)
}

/// Adds free cells, so that there are at least `end`.
fn grow(
    checks: &mut Vec<usize>,
    values: &mut Vec<usize>,
    begun: &mut Vec<bool>,
    width: usize,
    end: usize,
) -> Result<(), AllocError>
    requires beside { vec_len checks.old ≤ vec_len values.old }
    requires marked { vec_len checks.old ≤ vec_len begun.old }
    ensures grown { IsGrown width checks.old.items checks.new.items values.old.items
        values.new.items begun.old.items begun.new.items }
    ensures end { OnOk result (end ≤ vec_len checks.new) }
    ensures most { vec_len checks.new ≤ max (vec_len checks.old) end }
    ensures even { OnOk result (vec_len values.old ≡ vec_len checks.old
        → vec_len values.new ≡ vec_len checks.new) }
    ensures marks { OnOk result (vec_len begun.old ≡ vec_len checks.old
        → vec_len begun.new ≡ vec_len checks.new) }
{
    while checks.len() < end {
        values.push(0)?;
        begun.push(false)?;
        checks.push(width)?;
    }
    Ok(())
}

/// Writes a row at a place where it fits.
fn write(checks: &mut [usize], values: &mut [usize], row: &[Option<usize>], d: usize)
    requires room { d + length row.now ≤ length checks.old }
    requires beside { length checks.old ≤ length values.old }
    ensures written { IsWritten (length row.now) d row.now checks.old checks.new values.old
        values.new }
{
    for t in 0..row.len() {
        if let Some(n) = row[t] {
            checks[d + t] = t;
            values[d + t] = n;
        }
    }
}

impl Packing {
    /// No rows, of `width` columns each.
    pub fn new(alloc: Global, width: usize) -> Packing
        requires { 0 < width }
        ensures { result ≡ record { width = width; checks = []; values = []; begun = [] } }
    {
        Packing {
            width,
            checks: Vec::new(alloc),
            values: Vec::new(alloc),
            begun: Vec::new(alloc),
        }
    }

    /// How many columns a row has.
    pub fn width(&self) -> usize
        ensures value { result ≡ self.now.width }
        ensures some { 0 < self.now.width }
    {
        self.width
    }

    /// How many cells there are. This call also says what holds of packed rows.
    pub fn len(&self) -> usize
        ensures value { result ≡ length self.now.checks }
        ensures few { result < 2 ^ 63 }
        ensures valid { IsPacking self.now.width self.now.checks self.now.values self.now.begun }
    {
        self.checks.len()
    }

    /// Whether the cell at a place is taken.
    pub fn is_taken(&self, at: usize) -> bool
        ensures value { result ≡ is_taken self.now at }
        ensures inside { result ≡ true → at < 2 ^ 63 }
    {
        at < self.checks.len() && self.checks[at] != self.width
    }

    /// Whether a row begins at a place.
    fn begins(&self, d: usize) -> bool
        ensures { result ≡ slice_index_or self.now.begun d false }
    {
        d < self.begun.len() && self.begun[d]
    }

    /// Whether a row of these columns would meet a cell that is taken.
    fn meets(&self, columns: &[usize], d: usize) -> bool
        requires near { d < 2 ^ 63 }
        requires columns { All (λ t. t < 2 ^ 63) columns.now }
        ensures { result ≡ list_any (λ t. is_taken self.now (d + t)) columns.now }
    {
        for t in columns {
            if self.is_taken(d + *t) {
                return true;
            }
        }
        false
    }

    /// Whether a row of these columns can begin at a place.
    pub fn can_begin(&self, columns: &[usize], d: usize) -> bool
        requires near { d < 2 ^ 63 }
        requires columns { All (λ t. t < 2 ^ 63) columns.now }
        ensures { result ≡ can_begin self.now columns.now d }
    {
        !self.begins(d) && !self.meets(columns, d)
    }

    /// Puts a row at a place where it can begin. It fails only when memory runs out.
    pub fn put(&mut self, row: &[Option<usize>], d: usize) -> Result<(), AllocError>
        requires row { length row.now ≡ self.old.width }
        requires free { can_begin self.old (columns_in row.now) d ≡ true }
        requires near { d ≤ length self.old.checks }
        ensures put { OnOk result (IsPut self.old self.new row.now d) }
        ensures exact { OnOk result (IsEven self.old → self.new ≡ with_row self.old row.now d) }
    {
        grow(
            &mut self.checks,
            &mut self.values,
            &mut self.begun,
            row.len(),
            d + row.len(),
        )?;
        self.begun[d] = true;
        write(&mut self.checks, &mut self.values, row, d);
        Ok(())
    }

    /// The cells: their checks, and their numbers.
    pub fn into_cells(self) -> (Vec<usize>, Vec<usize>)
        ensures checks { result.0.items ≡ self.checks }
        ensures values { result.1.items ≡ self.values }
        ensures beside { length self.checks ≤ length self.values }
        ensures small { AreAtMost self.width self.checks }
    {
        let Packing {
            width: _,
            checks,
            values,
            begun: _,
        } = self;
        (checks, values)
    }
}
