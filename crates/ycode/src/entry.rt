//! The explicit numbers of a row, each with its column.

ghost use Rattle.std.specs.Prelude.{ℕ, ◌≡◌, ◌<◌, None, IfOk, OnOk, length, slice_index_or};
ghost use Rattle.ycode.specs.Entries.{Adds, entry_at, number_at, or_else};

use std::alloc::{AllocError, Global};
use ybitsets::list::Sequence;

/// A number at a column of a row.
#[derive(Clone, Copy, Debug, Drop, PartialEq, Eq)]
pub struct Entry {
    /// The column.
    pub column: usize,
    /// The number.
    pub number: usize,
}

/// Adds a number at a column, where there is one. It fails only when memory runs out.
pub fn push_number(
    entries: &mut Sequence<Entry>,
    column: usize,
    number: Option<usize>,
) -> Result<(), AllocError>
    ensures { OnOk result (Adds column number entries.old entries.new) }
{
    let Some(number) = number else {
        return Ok(());
    };
    entries.push(Entry { column, number })?;
    Ok(())
}

/// Writes an entry into a row that has its column.
fn put_entry(row: &mut [Option<usize>], entry: Entry)
    ensures len { length row.new ≡ length row.old }
    ensures entry { (t : ℕ) → t < length row.old
        → slice_index_or row.new t None
        ≡ or_else (number_at entry t) (slice_index_or row.old t None) }
{
    if entry.column < row.len() {
        row[entry.column] = Some(entry.number);
    }
}

/// The row of these entries, with a place for each of `width` columns.
pub fn spread(
    alloc: Global,
    entries: &[Entry],
    width: usize,
) -> Result<Vec<Option<usize>>, AllocError>
    ensures len { IfOk result (λ v. length v.items ≡ width) }
    ensures entries { IfOk result (λ v. (t : ℕ) → t < width
        → slice_index_or v.items t None ≡ entry_at entries.now t) }
{
    let mut row = vec![in alloc; None; width]?;
    for entry in entries {
        put_entry(&mut row, *entry);
    }
    Ok(row)
}
