//! The left sides of a file that aren't marked. A mark stands for each symbol by number.

ghost use Rattle.std.specs.Prelude.{◌≡◌, filter, map, not, slice_index_or, true, unwrap_or, IfOk};
ghost use Rattle.std.specs.List.{find};
ghost use Rattle.ysymbols.specs.Names.{number_in};
ghost use Rattle.ysymbols.specs.Sources.{option_view};
ghost use Rattle.ysyntax.specs.TreeViews.{name_view};

use std::alloc::{AllocError, Global};
use ysymbols::names::{SymbolTable, number_in};
use ysyntax::tree::NameAt;

/// Whether a name is a symbol that isn't marked.
fn is_unmarked(left: &NameAt, names: &SymbolTable, marks: &[bool]) -> bool
    ensures { result
        ≡ not (slice_index_or marks.now (number_in names.now (name_view left.now)) true) }
{
    let s = number_in(names, left.name);
    s < marks.len() && !marks[s]
}

/// The place of the first left side that isn't marked: how many bytes stand before it, 0 where all
/// are marked.
pub fn unmarked_left(lefts: &[NameAt], names: &SymbolTable, marks: &[bool]) -> usize
    ensures { result
        ≡ unwrap_or (option_view (λ l. l.at)
        (find (λ l. not (slice_index_or marks.now (number_in names.now (name_view l))
        true)) lefts.now)) 0 }
{
    for left in lefts {
        if is_unmarked(left, names, marks) {
            return left.at;
        }
    }
    0
}

/// The places of all left sides that aren't marked, in their order. It fails only when memory runs
/// out.
pub fn unmarked_lefts(
    alloc: Global,
    lefts: &[NameAt],
    names: &SymbolTable,
    marks: &[bool],
) -> Result<Vec<usize>, AllocError>
    ensures { IfOk result (λ v. v.items
        ≡ map (λ l. l.at)
        (filter (λ l. not (slice_index_or marks.now (number_in names.now (name_view l))
        true)) lefts.now)) }
{
    let mut places = Vec::new(alloc);
    for left in lefts {
        if is_unmarked(left, names, marks) {
            places.push(left.at)?;
        }
    }
    Ok(places)
}
