//! All that the page's script is given.

use crate::cards::Cards;
use crate::cells::{Cell, cells_of};
use crate::input::Input;
use crate::record::Record;
use crate::table::{Looks, Table, states_of};
use serde::Serialize;
use std::alloc::Global;
use std::io::{self, ErrorKind};
use yexplain::reads::{Made, set};
use yfaults::opening::Opened;
use ysymbols::{Sym, let_go};

/// What the script is given.
#[derive(Serialize)]
struct Data<'a> {
    /// The paths of the grammar file and the tokens file.
    files: (&'a str, &'a str),
    table: Table<'a>,
    input: &'a Input,
    record: &'a Record,
    cells: Vec<Cell>,
    /// The conflicts of the grammar, where they are wanted.
    conflicts: Option<&'a Cards>,
}

impl Drop for Data<'_> {
    // A call in each owner, which keeps their proofs short.
    fn drop(self) {
        let_go!(self: Data { files, table, input, record, cells, conflicts });
    }
}

/// What the page shows: the files, the grammar, the input, the steps, the cells that they asked,
/// and the conflicts.
#[derive(Clone, Copy)]
pub struct Shown<'a> {
    /// The paths of the grammar file and the tokens file.
    pub files: (&'a str, &'a str),
    /// The tables of the grammar, and where things stand in its file.
    pub opened: &'a Opened,
    /// The tokens around the steps of the page.
    pub input: &'a Input,
    /// The steps of the page.
    pub record: &'a Record,
    /// The cells that the steps asked, each a state and a token.
    pub asked: &'a [(usize, Sym)],
    /// The conflicts, where they are wanted.
    pub conflicts: Option<&'a Cards>,
}

/// Adds a state, unless it is there.
fn add(marks: &mut [bool], states: &mut Vec<usize>, state: usize) -> Made<()> {
    if marks.get(state) == Some(&false) {
        set(marks, state, true);
        states.push(state)?;
    }
    Ok(())
}

impl<'a> Shown<'a> {
    /// The states that the page shows: the first, those of the first position, those that the steps
    /// come to, and those of conflicts.
    fn states(self, alloc: Global) -> Made<Vec<usize>> {
        let count = self.opened.tables.automaton().states();
        let mut marks = vec![in alloc; false; count]?;
        let mut states = Vec::new(alloc);
        add(&mut marks, &mut states, 0)?;
        for (_, state) in &self.record.start.stack {
            add(&mut marks, &mut states, *state)?;
        }
        for state in &self.record.states {
            add(&mut marks, &mut states, *state)?;
        }
        if let Some(cards) = self.conflicts {
            for card in &cards.kinds {
                add(&mut marks, &mut states, card.state)?;
            }
        }
        Ok(states)
    }

    /// The data as JSON. It fails only when memory runs out.
    pub fn json(self, alloc: Global) -> io::Result<Vec<u8>> {
        let Opened { tables, lines } = self.opened;
        let numbers = self.states(alloc)?;
        let mut looks = Looks::new(alloc);
        let states = states_of(alloc, tables.automaton(), &numbers, &mut looks)?;
        let data = Data {
            files: self.files,
            table: Table::new(alloc, tables, lines, states, looks.all.as_slice())?,
            input: self.input,
            record: self.record,
            cells: cells_of(alloc, tables, lines, self.asked)?,
            conflicts: self.conflicts,
        };
        match serde_json::to_vec(alloc, &data) {
            Ok(json) => Ok(json),
            Err(_) => Err(io::Error::from(ErrorKind::OutOfMemory)),
        }
    }
}
