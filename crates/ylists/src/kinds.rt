//! The conflicts of tables, in short.

use std::io::Write;
use yexplain::lines::{Lines, Spot};
use yexplain::why::put_cell;
use ysearch::groups::{Conflicts, Group};
use ytables::Tables;
use yview::page::Page;

/// Writes how many conflicts there are, in how many cells and groups, as the end of a line.
pub fn put_counts<W: Write>(page: &mut Page<W>, tables: &Tables, found: &Conflicts, groups: usize) {
    let counts = tables.conflicts();
    let (shifts, reduces) = (counts.shift_reduce, counts.reduce_reduce);
    let _ = write!(page, "{shifts} shift/reduce, {reduces} reduce/reduce, in ");
    page.count(found.cells, "table entry", "table entries");
    page.put(" of ");
    page.count(groups, "group", "groups");
    page.end();
}

/// Writes the beginning of a line that warns of a place of a file, or of the whole file.
pub fn put_front<W: Write>(page: &mut Page<W>, path: &str, spot: Option<Spot>) {
    page.put(path);
    if let Some(spot) = spot {
        let _ = write!(page, ":{spot}");
    }
    page.put(": warning: ");
}

/// Writes in how many states the conflicts of a kind stand, where that is more than one.
pub fn put_states<W: Write>(page: &mut Page<W>, group: Group) {
    let Group { states, last, .. } = group;
    if states > 1 {
        let _ = writeln!(
            page,
            "  The same in {states} states, the last of them {last}."
        );
    }
}

/// Writes a cell of each kind after the first ones, up to the last one that is named, and how many
/// more there are, and cells of no kind.
pub fn put_named<W: Write>(
    page: &mut Page<W>,
    tables: &Tables,
    lines: &Lines,
    found: &Conflicts,
    (first, last): (usize, usize),
) {
    for (kind, group) in found.groups.iter().take(last).skip(first) {
        let _ = put_cell(page, kind.cell(*group, tables, lines));
        put_states(page, *group);
    }
    let left = found.groups.len().saturating_sub(last);
    if left > 0 {
        page.put("and ");
        page.count(left, "group", "groups");
        page.line(" more");
    }
    if found.others > 0 {
        page.put("and ");
        page.count(found.others, "table entry", "table entries");
        page.line(" more, not grouped");
    }
}
