//! A list of accepted conflicts, written.

use crate::conflict::{Conflict, Conflicts};
use crate::list::{FIRST, FRONT, List};
use std::alloc::Global;
use std::io::{self, Write};
use yexplain::reads::Made;
use ysymbols::names::{SymbolTable, intern, number_in};

/// A conflict, and the number of its block: those of a token that are settled by one item.
#[derive(Clone, Copy)]
struct Placed<'a> {
    block: usize,
    conflict: &'a Conflict,
}

/// The conflicts that are written.
#[derive(Drop)]
struct Sheet<'a> {
    alloc: Global,
    fronts: SymbolTable,
    placed: Vec<Placed<'a>>,
}

impl<'a> Sheet<'a> {
    /// Adds the first conflicts that are among the others, or those that aren't: each to its block,
    /// the last one where it has none.
    fn place_all(
        &mut self,
        conflicts: &'a Conflicts,
        others: &Conflicts,
        are_among: bool,
    ) -> Made<()> {
        for conflict in &conflicts.all {
            if others.has(self.alloc, conflict)? == are_among {
                let front = conflict.front(self.alloc)?;
                let block = number_in(&self.fronts, &front);
                intern(self.alloc, &mut self.fronts, &front)?;
                self.placed.push(Placed { block, conflict })?;
            }
        }
        Ok(())
    }
}

/// Writes a line of a conflict.
fn put_line<W: Write>(out: &mut W, front: &[u8], text: &[u8]) -> io::Result<()> {
    out.write_all(front)?;
    out.write_all(text)?;
    out.write_all(b"\n")
}

/// Writes the blocks of conflicts: the front of each is its comments, its token, and the item that
/// is taken.
fn put_blocks<W: Write>(
    alloc: Global,
    out: &mut W,
    list: &List,
    placed: &[Placed<'_>],
) -> io::Result<()> {
    let mut block = None;
    for it in placed {
        if block != Some(it.block) {
            let front = it.conflict.front(alloc)?;
            out.write_all(b"\n")?;
            out.write_all(list.comment(&front))?;
            put_line(out, FRONT, &it.conflict.token)?;
            put_line(out, b"  ", &it.conflict.taken)?;
        }
        block = Some(it.block);
        put_line(out, b"  ", &it.conflict.other)?;
    }
    Ok(())
}

/// Writes a list anew, which was read or is empty, for the conflicts that were found in a grammar
/// of this path: those of the list that are still there, in its order and with its comments, and
/// then those that are new.
pub fn put_list<W: Write>(
    alloc: Global,
    out: &mut W,
    path: &str,
    list: &List,
    found: &Conflicts,
) -> io::Result<()> {
    let mut sheet = Sheet {
        alloc,
        fronts: SymbolTable::new(alloc),
        placed: Vec::new(alloc),
    };
    sheet.place_all(&list.accepted, found, true)?;
    sheet.place_all(found, &list.accepted, false)?;
    let Sheet { mut placed, .. } = sheet;
    placed.sort_by_key(|it| it.block)?;
    writeln!(
        out,
        "## Accepted conflicts of {path}: on a token, the item that is taken, and rules that \
         aren't."
    )?;
    writeln!(
        out,
        "## ydebug conflicts --accept FILE --update writes this anew, and keeps other comments."
    )?;
    out.write_all(&list.head)?;
    put_line(out, FIRST, b"")?;
    put_blocks(alloc, out, list, &placed)?;
    if !list.tail.is_empty() {
        out.write_all(b"\n")?;
    }
    out.write_all(&list.tail)
}
