//! Rules, states and filled cells as they are written.

use crate::cells::{Cell, Cells};
use std::io::{self, Write};
use yexplain::lines::Lines;
use yexplain::reads::{default_of, grammar_of, items_of};
use yexplain::text::{ItemText, Name, Numbered, RuleText};
use yexplain::why::{Question, put_cell};
use ylalr::Item;
use ytables::Tables;

/// A kind of what tables have.
#[derive(Clone, Copy, Drop, PartialEq, Eq)]
pub enum Kind {
    /// Rules, but for rule 0, which is never reduced.
    Rules,
    /// States.
    States,
    /// Filled cells.
    Cells,
}

impl Kind {
    /// The word for so many of it.
    pub fn word(self, count: usize) -> &'static str {
        match (self, count == 1) {
            (Kind::Rules, true) => "rule",
            (Kind::Rules, false) => "rules",
            (Kind::States, true) => "state",
            (Kind::States, false) => "states",
            (Kind::Cells, true) => "action",
            (Kind::Cells, false) => "actions",
        }
    }

    /// The number of the first of it.
    pub fn first(self) -> usize {
        match self {
            Kind::Rules => 1,
            Kind::States | Kind::Cells => 0,
        }
    }
}

/// The elements of tables, as they are written.
#[derive(Clone, Copy)]
pub struct Elements<'a> {
    /// The tables.
    pub tables: &'a Tables,
    /// Where rules stand in the grammar's file.
    pub lines: &'a Lines,
    /// The filled cells.
    pub cells: &'a Cells,
}

impl Elements<'_> {
    /// Writes an element as one of a list of its kind: its number, or the state and the token of a
    /// cell.
    pub fn put_short<W: Write>(&self, out: &mut W, kind: Kind, number: usize) -> io::Result<()> {
        let cell = match self.cells.at(number) {
            Some(cell) if kind == Kind::Cells => cell,
            _ => return write!(out, "{number}"),
        };
        let state = cell.state;
        match cell.token {
            Some(token) => {
                let name = Name(grammar_of(self.tables), token);
                write!(out, "{state} on {name}")
            }
            None => write!(out, "{state} on every token"),
        }
    }

    /// Writes an element with what it is, up to the end of a line.
    pub fn put_line<W: Write>(&self, out: &mut W, kind: Kind, number: usize) -> io::Result<()> {
        match (kind, self.cells.at(number)) {
            (Kind::Rules, _) => {
                let text = RuleText(grammar_of(self.tables), number);
                let numbered = Numbered(self.lines, number);
                writeln!(out, "{numbered}  {text}")
            }
            (Kind::States, _) => {
                // the first of its items that have the most symbols before their dots
                let mut furthest: Option<Item> = None;
                for item in items_of(self.tables.automaton(), number) {
                    if furthest.map_or(true, |other| other.dot < item.dot) {
                        furthest = Some(*item);
                    }
                }
                write!(out, "state {number}")?;
                if let Some(item) = furthest {
                    let text = ItemText(grammar_of(self.tables), item);
                    write!(out, "  {text}")?;
                }
                writeln!(out)
            }
            (Kind::Cells, Some(cell)) => self.put_cell_line(out, cell),
            (Kind::Cells, None) => writeln!(out),
        }
    }

    /// Writes a cell with what it says.
    fn put_cell_line<W: Write>(&self, out: &mut W, cell: Cell) -> io::Result<()> {
        let state = cell.state;
        let Elements { tables, lines, .. } = self;
        match (cell.token, default_of(tables, state)) {
            (Some(token), _) => put_cell(
                out,
                Question {
                    tables,
                    lines,
                    state,
                    token,
                },
            ),
            (None, Some(rule)) => {
                let rule = Numbered(lines, rule);
                writeln!(out, "state {state} on every token: reduce by {rule}")
            }
            (None, None) => writeln!(out, "state {state} on every token"),
        }
    }
}
