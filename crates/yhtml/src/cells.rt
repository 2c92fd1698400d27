//! The cells that the steps asked, with what settled each.

use serde::Serialize;
use std::alloc::{AllocError, Global};
use std::{io, str};
use yexplain::lines::Lines;
use yexplain::reads::{Made, conflict_of, rivals_in};
use yexplain::why::Question;
use ysymbols::Sym;
use ytables::Tables;

/// A cell: how many conflicts it counts, and why it says what it says.
#[derive(Drop, Serialize)]
pub struct Cell {
    /// How many conflicts it counts.
    pub conflicts: usize,
    /// Why it says what it says, in lines.
    pub why: String,
}

/// The text of these bytes, which are ASCII.
pub fn text_of(alloc: Global, bytes: &[u8]) -> Made<String> {
    String::from_str(alloc, str::from_utf8(bytes).unwrap_or(""))
}

/// Why the cell of a state and a token says what it says.
pub fn why_of(alloc: Global, asked: Question<'_>) -> io::Result<String> {
    let mut why = Vec::new(alloc);
    asked.put_reason(&mut why)?;
    asked.put_choice(&mut why)?;
    Ok(text_of(alloc, &why)?)
}

/// The cells of these states and tokens.
pub fn cells_of(
    alloc: Global,
    tables: &Tables,
    lines: &Lines,
    asked: &[(usize, Sym)],
) -> io::Result<Vec<Cell>> {
    let mut cells = Vec::new(alloc);
    for (state, token) in asked {
        let conflict = conflict_of(tables, *state, *token);
        let asked = Question {
            tables,
            lines,
            state: *state,
            token: *token,
        };
        let cell = Cell {
            conflicts: conflict.map_or(0, rivals_in),
            why: why_of(alloc, asked)?,
        };
        cells.push(cell).map_err(AllocError::from)?;
    }
    Ok(cells)
}
